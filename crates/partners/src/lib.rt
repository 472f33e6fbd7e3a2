// The partners of a unit that is enrolled, its sources and its listeners: what is asked of the two lists beforehand, what
// their units hear and what hears them, and how the new unit is joined to them in a store.
#![tactic(auto)]

ghost use Rattle.std.specs.Prelude.{◌≡◌, ℕ, Bool, not, ◌||◌, T, ◌++◌};
ghost use Rattle.units.specs.Has.{has};
ghost use Rattle.theory.specs.Maps.{Map, listed};
ghost use Rattle.theory.specs.Chains.{On};
ghost use Rattle.theory.specs.Hearing.{is_heard};
ghost use Rattle.plain.specs.Lists.{some, doubled};
ghost use Rattle.labels.specs.OfMaps.{KeptOf};

use labels::Ranked;
use ranks::Ranks;
use units::UnitSet;

mod joining;

// Whether every unit of the list has a rank.
pub fn all_known(ranks: &Ranks, units: &[u8]) -> bool
    ensures { result ≡ not (some (λ u. not (listed u ranks.now)) units.now) }
{
    units.iter().all(|u| ranks.holds(*u))
}

// Whether a unit stands twice in the list.
pub fn any_doubled(units: &[u8]) -> bool
    ensures { result ≡ doubled units.now }
{
    let mut seen = UnitSet::empty();
    for u in units {
        if seen.contains(*u) {
            return true;
        }
        seen.insert(*u);
    }
    false
}

// Whether a unit of the list is in the set.
pub fn any_member(set: &UnitSet, units: &[u8]) -> bool
    ensures { result ≡ some (has set.now) units.now }
{
    units.iter().any(|u| set.contains(*u))
}

// All that `of` gives for a unit of the list.
fn gathered<F: Fn(u8) -> UnitSet>(units: &[u8], of: F) -> UnitSet
    requires { F.IsAlwaysCallable of }
    ensures { (f : ℕ → ℕ → Bool) → ((u : ℕ) → On u units.now → (set : UnitSet) → F.post of u set → (v : ℕ) → has set v ≡ f u v) → (v : ℕ) → has result v ≡ some (λ u. f u v) units.now }
{
    let mut all = UnitSet::empty();
    for u in units {
        all = all.union(&of(*u));
    }
    all
}

// What is paired to a unit, and what it is paired to.
#[derive(Clone, Copy)]
pub struct Partners<'a> {
    pub sources: &'a [u8],
    pub listeners: &'a [u8],
}

impl<'a> Partners<'a> {
    // Whether every partner has a rank.
    pub fn all_known(&self, ranks: &Ranks) -> bool
        ensures { result ≡ not (some (λ u. not (listed u ranks.now)) (self.now.sources.now ++ self.now.listeners.now)) }
    {
        all_known(ranks, self.sources) && all_known(ranks, self.listeners)
    }

    // Whether a unit stands twice in one of the lists.
    pub fn any_doubled(&self) -> bool
        ensures { result ≡ (doubled self.now.sources.now || doubled self.now.listeners.now) }
    {
        any_doubled(self.sources) || any_doubled(self.listeners)
    }

    // All that a source hears, by the kept labels.
    pub fn heard(&self, ranked: &Ranked) -> UnitSet
        ensures { (m : Map) → KeptOf m ranked.now → ((u : ℕ) → On u self.now.sources.now → T (m.unit u)) → (v : ℕ) → has result v ≡ some (λ s. is_heard m v s) self.now.sources.now }
    {
        gathered(self.sources, |s| ranked.heard(s))
    }

    // All that hear a listener, by the kept labels.
    pub fn hearers(&self, ranked: &Ranked) -> UnitSet
        ensures { (m : Map) → KeptOf m ranked.now → ((u : ℕ) → On u self.now.listeners.now → T (m.unit u)) → (v : ℕ) → has result v ≡ some (λ t. is_heard m t v) self.now.listeners.now }
    {
        gathered(self.listeners, |t| ranked.hearers(t))
    }

    // Whether a source hears a listener, by the kept labels: then a unit with these partners would be on a ring.
    pub fn make_ring(&self, ranked: &Ranked) -> bool
        ensures { (m : Map) → KeptOf m ranked.now → ((u : ℕ) → On u self.now.listeners.now → T (m.unit u)) → result ≡ some (λ s. some (λ t. is_heard m t s) self.now.listeners.now) self.now.sources.now }
    {
        any_member(&self.hearers(ranked), self.sources)
    }
}
