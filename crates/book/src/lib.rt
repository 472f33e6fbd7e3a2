// The book: a store, the ranks of its units and the labels it keeps, and the calls that are put to them. Each call means
// what the plain book says; it is refused before anything is changed.
#![tactic(auto)]

ghost use Rattle.std.specs.Prelude.{◌≡◌, ℕ, true, false, not, ◌||◌, [], ◌∷◌, ◌++◌, length};
ghost use Rattle.units.specs.Has.{has};
ghost use Rattle.theory.specs.Ranks.{Orders};
ghost use Rattle.theory.specs.Maps.{Map};
ghost use Rattle.labels.specs.Holding.{Exact};
ghost use Rattle.labels.specs.Listed.{Listed, list_of};
ghost use Rattle.mending.specs.Mended.{Mended};
ghost use Rattle.plain.specs.Plain.{map_of, empty, hears};
ghost use Rattle.plain.specs.Lists.{some};
ghost use Rattle.plain.specs.Requests.{Hear, Enrol, Pair, Unpair, Drop, Rank, enrol_checks, partners as partner_checks, rank_checks, pair_checks, unpair_checks, first_cause, unknown, stands, verdict};
ghost use Rattle.book.specs.Views.{plain_of, Whole, kept_list};
ghost use Rattle.book.specs.Answers.{answered, ByChains, Lists, list_request, fault_of};
ghost use Rattle.book.specs.Changes.{Changes};

use grid::Matrix;
use labels::{Labels, List, Ranked, ShortBuffer};
use maps::{Map, Store};
use mending::{Touched, mend};
use partners::{Partners, all_known};
use plain::BookFault;
use ranks::Ranks;

mod pages;
mod questions;

// That the three agree is what every call asks and promises, and no invariant of the type: this is the project's rule, and a
// store's meaning is its trait's.
#[derive(Drop)]
pub struct Book<S: Store> {
    store: S,
    ranks: Ranks,
    labels: Labels,
}

impl<S: Store> Book<S> {
    // A book with no unit, over a store that is cleared first.
    pub fn make(mut store: S) -> Book<S>
        ensures empty { plain_of S.Map.meaning result ≡ empty }
        ensures whole { Whole S.Map.meaning result }
    {
        store.clear();
        Book {
            store,
            ranks: Ranks::empty(),
            labels: Labels::empty(),
        }
    }

    // The kept labels, and the order of the ranks.
    fn ranked(&self) -> Ranked<'_>
        ensures labels { result.labels.now ≡ self.now.labels }
        ensures order { result.order.now ≡ self.now.ranks }
    {
        Ranked {
            labels: &self.labels,
            order: self.ranks.as_slice(),
        }
    }

    // Whether all these units stand, told by the fault that is shown where one does not.
    fn check_known(&self, units: &[u8]) -> Result<(), BookFault>
        ensures { result ≡ answered (first_cause (unknown (plain_of S.Map.meaning self.now) units.now ∷ [])) tt }
    {
        if all_known(&self.ranks, units) {
            Ok(())
        } else {
            Err(BookFault::Unknown)
        }
    }

    // Whether t hears s, told by the kept labels.
    fn is_heard(&self, s: u8, t: u8) -> bool
        requires whole { Whole S.Map.meaning self.now }
        requires both { (stands (plain_of S.Map.meaning self.now) s ≡ true) × (stands (plain_of S.Map.meaning self.now) t ≡ true) }
        ensures { result ≡ hears (plain_of S.Map.meaning self.now) t s }
    {
        self.ranked().highest_shared(s, t).is_some()
    }

    // Whether t hears s.
    pub fn hear(&self, s: u8, t: u8) -> Result<bool, BookFault>
        requires { Whole S.Map.meaning self.now }
        ensures told { result ≡ answered (verdict S.Store.room (plain_of S.Map.meaning self.now) (Hear s t)) (hears (plain_of S.Map.meaning self.now) t s) }
        ensures chains { ByChains (map_of (plain_of S.Map.meaning self.now)) s t result }
    {
        self.check_known(&[s, t])?;
        Ok(self.is_heard(s, t))
    }

    // One of the lists of u, the highest first, written from the buffer's start. Tells how many they are.
    pub fn list(&self, list: List, u: u8, buffer: &mut [u8]) -> Result<usize, BookFault>
        requires { Whole S.Map.meaning self.now }
        ensures listed { Lists S.Store.room (plain_of S.Map.meaning self.now) (list_request list u (length buffer.old)) (list_of list (map_of (plain_of S.Map.meaning self.now)) (plain_of S.Map.meaning self.now).order u) buffer.old result buffer.new }
        ensures kept { kept_list S.Map.meaning list self.now u ≡ list_of list (map_of (plain_of S.Map.meaning self.now)) (plain_of S.Map.meaning self.now).order u }
    {
        self.check_known(&[u])?;
        fitted(self.write_list(list, u, buffer))
    }

    // The list as the labels have it, which are those of the map.
    #[tactic(auto, using(crate::proofs::Listing::by_order))]
    fn write_list(&self, list: List, u: u8, buffer: &mut [u8]) -> Result<usize, ShortBuffer>
        ensures { (m : Map) → Exact m self.now.ranks self.now.labels → Listed (list_of list m self.now.ranks u) buffer.old result buffer.new }
    {
        self.ranked().list(list, u, buffer)
    }

    // The units between which a change of a and b can alter labels: all that a hears, and all that hear b.
    fn touched(&self, a: u8, b: u8) -> Touched
        requires whole { Whole S.Map.meaning self.now }
        requires stand { (stands (plain_of S.Map.meaning self.now) a ≡ true) × (stands (plain_of S.Map.meaning self.now) b ≡ true) }
        ensures ups { (u : ℕ) → has result.ups u ≡ hears (plain_of S.Map.meaning self.now) a u }
        ensures downs { (u : ℕ) → has result.downs u ≡ hears (plain_of S.Map.meaning self.now) u b }
    {
        let ranked = self.ranked();
        Touched {
            ups: ranked.heard(a),
            downs: ranked.hearers(b),
        }
    }

    // Mends the labels after the store and the ranks have changed.
    fn mend_labels(&mut self, touched: &Touched) -> u32
        requires { Orders (S.Map.meaning self.old.store) self.old.ranks }
        ensures mended { Mended (S.Map.meaning self.old.store) self.old.ranks touched.now.ups touched.now.downs self.old.labels self.new.labels result }
        ensures store { self.new.store ≡ self.old.store }
        ensures ranks { self.new.ranks ≡ self.old.ranks }
    {
        let map = Matrix::copy_of(&self.store);
        mend(&mut self.labels, &map, self.ranks.as_slice(), touched)
    }

    // The first cause for which a is not paired to b.
    fn check_pair(&self, a: u8, b: u8) -> Result<(), BookFault>
        requires { Whole S.Map.meaning self.now }
        ensures { result ≡ answered (first_cause (pair_checks S.Store.room (plain_of S.Map.meaning self.now) a b)) tt }
    {
        self.check_known(&[a, b])?;
        if self.is_heard(b, a) {
            return Err(BookFault::Ring);
        }
        if self.store.paired(a, b) {
            return Err(BookFault::AlreadyPaired);
        }
        self.store.has_room(1)?;
        Ok(())
    }

    // The first cause for which a is not unpaired from b.
    fn check_unpair(&self, a: u8, b: u8) -> Result<(), BookFault>
        requires { Whole S.Map.meaning self.now }
        ensures { result ≡ answered (first_cause (unpair_checks (plain_of S.Map.meaning self.now) a b)) tt }
    {
        self.check_known(&[a, b])?;
        if !self.store.paired(a, b) {
            return Err(BookFault::NotPaired);
        }
        Ok(())
    }

    // Pairs a to b. Tells how many labels stand before or after, and not both.
    pub fn pair(&mut self, a: u8, b: u8) -> Result<u32, BookFault>
        requires { Whole S.Map.meaning self.old }
        ensures { Changes S.Map.meaning S.Store.room self.old (Pair a b) result self.new }
    {
        self.check_pair(a, b)?;
        let touched = self.touched(a, b);
        self.store.join(a, b)?;
        Ok(self.mend_labels(&touched))
    }

    // Takes the pairing of a to b away.
    pub fn unpair(&mut self, a: u8, b: u8) -> Result<u32, BookFault>
        requires { Whole S.Map.meaning self.old }
        ensures { Changes S.Map.meaning S.Store.room self.old (Unpair a b) result self.new }
    {
        self.check_unpair(a, b)?;
        let touched = self.touched(a, b);
        self.store.part(a, b)?;
        Ok(self.mend_labels(&touched))
    }

    // The first cause for which v is not moved to the rank k.
    fn check_rank(&self, v: u8, k: u8) -> Result<(), BookFault>
        ensures { result ≡ answered (first_cause (rank_checks (plain_of S.Map.meaning self.now) v k)) tt }
    {
        self.check_known(&[v])?;
        if k == 0 || k > self.ranks.len() {
            return Err(BookFault::RankOutside);
        }
        Ok(())
    }

    // Takes v out, with its pairings; lower units move up.
    pub fn drop_unit(&mut self, v: u8) -> Result<u32, BookFault>
        requires { Whole S.Map.meaning self.old }
        ensures { Changes S.Map.meaning S.Store.room self.old (Drop v) result self.new }
    {
        self.check_known(&[v])?;
        let touched = self.touched(v, v);
        self.store.take(v)?;
        self.ranks.remove(v);
        Ok(self.mend_labels(&touched))
    }

    // Takes v out of the order and puts it back at rank k; the others keep their order.
    pub fn rank(&mut self, v: u8, k: u8) -> Result<u32, BookFault>
        requires { Whole S.Map.meaning self.old }
        ensures { Changes S.Map.meaning S.Store.room self.old (Rank v k) result self.new }
    {
        self.check_rank(v, k)?;
        let touched = self.touched(v, v);
        self.ranks.move_to(k - 1, v);
        Ok(self.mend_labels(&touched))
    }

    // Whether some source hears some listener.
    fn makes_ring(&self, partners: &Partners) -> bool
        requires whole { Whole S.Map.meaning self.now }
        requires stand { some (λ u. not (stands (plain_of S.Map.meaning self.now) u)) (partners.now.sources.now ++ partners.now.listeners.now) ≡ false }
        ensures { result ≡ some (λ s. some (λ t. hears (plain_of S.Map.meaning self.now) s t) partners.now.listeners.now) partners.now.sources.now }
    {
        partners.make_ring(&self.ranked())
    }

    // The first cause for which a unit cannot have the partners.
    fn check_partners(&self, partners: &Partners) -> Result<(), BookFault>
        requires { Whole S.Map.meaning self.now }
        ensures { result ≡ answered (first_cause (partner_checks S.Store.room (plain_of S.Map.meaning self.now) partners.now.sources.now partners.now.listeners.now)) tt }
    {
        if !partners.all_known(&self.ranks) {
            return Err(BookFault::Unknown);
        }
        if partners.any_doubled() {
            return Err(BookFault::Doubled);
        }
        if self.makes_ring(partners) {
            return Err(BookFault::Ring);
        }
        self.store
            .has_room(partners.sources.len() + partners.listeners.len())?;
        Ok(())
    }

    // The first cause for which v is not enrolled at the rank k with the partners.
    fn check_enrol(&self, v: u8, k: u8, partners: &Partners) -> Result<(), BookFault>
        requires { Whole S.Map.meaning self.now }
        ensures { result ≡ answered (first_cause (enrol_checks S.Store.room (plain_of S.Map.meaning self.now) v k partners.now.sources.now partners.now.listeners.now)) tt }
    {
        if v == 0 {
            return Err(BookFault::Zero);
        }
        if self.ranks.holds(v) {
            return Err(BookFault::Standing);
        }
        if k == 0 || u16::from(k) > u16::from(self.ranks.len()) + 1 {
            return Err(BookFault::RankOutside);
        }
        self.check_partners(partners)
    }

    // Enrols v at the rank k: units from there on move down, each source is paired to v and v to each listener.
    // The two lists are parameters here and at `best_place`, where a caller writes them; within, they are one value.
    pub fn enrol(
        &mut self,
        v: u8,
        k: u8,
        sources: &[u8],
        listeners: &[u8],
    ) -> Result<u32, BookFault>
        requires { Whole S.Map.meaning self.old }
        ensures { Changes S.Map.meaning S.Store.room self.old (Enrol v k sources.now listeners.now) result self.new }
    {
        let partners = Partners { sources, listeners };
        self.check_enrol(v, k, &partners)?;
        let mut ups = partners.heard(&self.ranked());
        let mut downs = partners.hearers(&self.ranked());
        ups.insert(v);
        downs.insert(v);
        partners.attach(&mut self.store, v)?;
        self.ranks.insert(k - 1, v);
        Ok(self.mend_labels(&Touched { ups, downs }))
    }
}

// The fault of the labels, as the book's.
fn fitted(answer: Result<usize, ShortBuffer>) -> Result<usize, BookFault>
    ensures { result ≡ fault_of answer }
{
    answer.map_err(|_| BookFault::ShortBuffer)
}
