// A book of the units 1 to 15 that keeps their ranks and their pairings, and computes all else anew at each call.
ghost use Rattle.std.specs.Prelude.{◌≤◌};

use crate::changes::{Change, List};
use crate::relation::Relation;
use plain::BookFault;

// A rank for each number, in fixed memory as in the book. A unit that does not stand has none.
#[derive(Clone, Copy)]
pub struct BruteBook {
    ranks: [Option<u8>; 16],
    pairs: Relation,
}

// Whether a unit stands twice in the list.
fn has_double(list: &[u8]) -> bool {
    list.iter()
        .any(|u| list.iter().filter(|x| *x == u).count() > 1)
}

impl BruteBook {
    pub fn new() -> BruteBook {
        BruteBook {
            ranks: [None; 16],
            pairs: Relation::none(),
        }
    }

    fn rank_of(&self, u: u8) -> Option<u8> {
        self.ranks[usize::from(u % 16)]
    }

    fn set_rank(&mut self, u: u8, rank: Option<u8>) {
        self.ranks[usize::from(u % 16)] = rank;
    }

    fn stands(&self, u: u8) -> bool {
        u < 16 && self.rank_of(u).is_some()
    }

    // How many units stand.
    fn count(&self) -> usize
        ensures { result ≤ 16 }
    {
        self.ranks.iter().filter(|rank| rank.is_some()).count()
    }

    // Whom each unit is heard by: a is related to b where there is a chain of pairings from a to b.
    fn hearing(&self) -> Relation {
        let mut heard = self.pairs;
        heard.close();
        heard
    }

    // Whether a unit that is higher than u stands on a chain from u to v.
    fn passes_higher(&self, heard: &Relation, u: u8, v: u8) -> bool {
        (0..16u8).any(|w| heard.has(u, w) && heard.has(w, v) && self.rank_of(w) < self.rank_of(u))
    }

    // u is related to v where u is an in-label of v, by the chains of the relation.
    fn labels(&self, heard: &Relation) -> Relation {
        Relation::of(|u, v| {
            heard.has(u, v) && self.rank_of(u) < self.rank_of(v) && !self.passes_higher(heard, u, v)
        })
    }

    fn in_labels(&self) -> Relation {
        self.labels(&self.hearing())
    }

    fn out_labels(&self) -> Relation {
        self.labels(&self.hearing().turn())
    }

    // w is related to u where w stands in the list of u.
    fn members(&self, list: List) -> Relation {
        match list {
            List::InLabels => self.in_labels(),
            List::OutLabels => self.out_labels(),
            List::InHolders => self.in_labels().turn(),
            List::OutHolders => self.out_labels().turn(),
        }
    }

    // How many labels stand in the one book and not in the other.
    fn labels_changed(&self, other: &BruteBook) -> u32 {
        let ins = self.in_labels().differences(&other.in_labels());
        let outs = self.out_labels().differences(&other.out_labels());
        (ins + outs) as u32
    }

    fn unit_at(&self, rank: u8) -> Option<u8> {
        (0..16u8).find(|u| self.rank_of(*u) == Some(rank))
    }

    // Writes a list of u from the buffer's start, in the order of rank, and tells its length; the caller lends the buffer, as it
    // does to the book.
    pub fn ask(&self, list: List, u: u8, buffer: &mut [u8]) -> Result<usize, BookFault> {
        if !self.stands(u) {
            return Err(BookFault::Unknown);
        }
        let members = self.members(list);
        let length = (0..16u8).filter(|w| members.has(*w, u)).count();
        if length > buffer.len() {
            return Err(BookFault::ShortBuffer);
        }
        let by_rank = (1..16u8).filter_map(|k| self.unit_at(k));
        for (place, w) in buffer
            .iter_mut()
            .zip(by_rank.filter(|w| members.has(*w, u)))
        {
            *place = w;
        }
        Ok(length)
    }

    // Whether t hears s.
    pub fn hear(&self, s: u8, t: u8) -> Result<bool, BookFault> {
        if self.stands(s) && self.stands(t) {
            Ok(self.hearing().has(s, t))
        } else {
            Err(BookFault::Unknown)
        }
    }

    fn any_unknown(&self, list: &[u8]) -> bool {
        list.iter().any(|u| !self.stands(*u))
    }

    // Whether one of the sources hears one of the listeners. The two lists go one by one here and in `Change`: the brute book
    // shares no type with the book that it checks.
    fn any_ring(&self, sources: &[u8], listeners: &[u8]) -> bool {
        let heard = self.hearing();
        sources
            .iter()
            .any(|s| listeners.iter().any(|t| heard.has(*t, *s)))
    }

    // The first cause for which a unit cannot have the partners.
    fn check_partners(&self, sources: &[u8], listeners: &[u8]) -> Result<(), BookFault> {
        if self.any_unknown(sources) || self.any_unknown(listeners) {
            return Err(BookFault::Unknown);
        }
        if has_double(sources) || has_double(listeners) {
            return Err(BookFault::Doubled);
        }
        if self.any_ring(sources, listeners) {
            return Err(BookFault::Ring);
        }
        Ok(())
    }

    // The first cause for which the change is refused. There is always room for the pairings of 15 units.
    fn check_change(&self, change: &Change<'_>) -> Result<(), BookFault> {
        match *change {
            Change::Enrol { unit: 0, .. } => Err(BookFault::Zero),
            Change::Enrol {
                unit,
                rank,
                sources,
                listeners,
            } => {
                if self.stands(unit) {
                    return Err(BookFault::Standing);
                }
                if rank == 0 || usize::from(rank) > self.count() + 1 {
                    return Err(BookFault::RankOutside);
                }
                self.check_partners(sources, listeners)
            }
            Change::Drop(v) => self.check_known(v, v),
            Change::Pair(a, b) => self.check_pair(a, b),
            Change::Unpair(a, b) => self.check_unpair(a, b),
            Change::Rank(v, k) => self.check_rank(v, k),
        }
    }

    fn check_known(&self, a: u8, b: u8) -> Result<(), BookFault> {
        if self.stands(a) && self.stands(b) {
            Ok(())
        } else {
            Err(BookFault::Unknown)
        }
    }

    fn check_pair(&self, a: u8, b: u8) -> Result<(), BookFault> {
        self.check_known(a, b)?;
        if self.hearing().has(b, a) {
            return Err(BookFault::Ring);
        }
        if self.pairs.has(a, b) {
            return Err(BookFault::AlreadyPaired);
        }
        Ok(())
    }

    fn check_unpair(&self, a: u8, b: u8) -> Result<(), BookFault> {
        self.check_known(a, b)?;
        if !self.pairs.has(a, b) {
            return Err(BookFault::NotPaired);
        }
        Ok(())
    }

    fn check_rank(&self, v: u8, k: u8) -> Result<(), BookFault> {
        self.check_known(v, v)?;
        if k == 0 || usize::from(k) > self.count() {
            return Err(BookFault::RankOutside);
        }
        Ok(())
    }

    // Gives the unit the rank; those from that rank on move down.
    fn rank_in(&mut self, v: u8, rank: u8) {
        for old in self.ranks.iter_mut() {
            *old = old.map(|k| if k >= rank { k.saturating_add(1) } else { k });
        }
        self.set_rank(v, Some(rank));
    }

    // Takes the unit's rank away; those below it move up.
    fn rank_out(&mut self, v: u8) {
        let rank = self.rank_of(v);
        self.set_rank(v, None);
        for old in self.ranks.iter_mut() {
            *old = old.map(|k| if Some(k) > rank {
                k.saturating_sub(1)
            } else {
                k
            });
        }
    }

    // Pairs the ends that `ends` gives for each unit of the list.
    fn pair_all<F: Fn(u8) -> (u8, u8)>(&mut self, units: &[u8], ends: F)
        requires { F.IsAlwaysCallable ends }
    {
        for u in units {
            let (a, b) = ends(*u);
            self.pairs.set(a, b, true);
        }
    }

    // Makes a change that is not refused.
    fn make_change(&mut self, change: &Change<'_>) {
        match *change {
            Change::Enrol {
                unit,
                rank,
                sources,
                listeners,
            } => {
                self.rank_in(unit, rank);
                self.pair_all(sources, |s| (s, unit));
                self.pair_all(listeners, |t| (unit, t));
            }
            Change::Drop(v) => {
                self.pairs.cut(v);
                self.rank_out(v);
            }
            Change::Pair(a, b) => self.pairs.set(a, b, true),
            Change::Unpair(a, b) => self.pairs.set(a, b, false),
            Change::Rank(v, k) => {
                self.rank_out(v);
                self.rank_in(v, k);
            }
        }
    }

    // Puts the change to the book. Tells how many labels stand before or after, and not both.
    pub fn put(&mut self, change: &Change<'_>) -> Result<u32, BookFault> {
        self.check_change(change)?;
        let before = *self;
        self.make_change(change);
        Ok(self.labels_changed(&before))
    }
}
