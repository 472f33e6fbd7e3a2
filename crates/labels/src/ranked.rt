// Who hears whom, told by the kept labels.
ghost use Rattle.std.specs.Prelude.{◌≡◌, ℕ, ◌||◌, T, ◌↔◌, is_some, Some, ◌==◌};
ghost use Rattle.std.specs.List.{find};
ghost use Rattle.units.specs.Has.{has};
ghost use Rattle.theory.specs.Maps.{Map};
ghost use Rattle.theory.specs.Hearing.{is_heard};
ghost use Rattle.theory.specs.Ranks.{rank_in};
ghost use Rattle.theory.specs.Labels.{Highest};
ghost use Rattle.theory.specs.Lists.{highest_shared};
ghost use Rattle.labels.specs.Holding.{holds};
ghost use Rattle.labels.specs.Asked.{Kept, sharing, covered};
ghost use Rattle.labels.specs.OfMaps.{ExactOf, KeptOf};

use crate::{Holders, Labels};
use units::UnitSet;

// Kept labels, and the order of rank in which they are those of the map.
#[derive(Clone, Copy)]
pub struct Ranked<'a> {
    pub labels: &'a Labels,
    pub order: &'a [u8],
}

impl<'a> Ranked<'a> {
    // Whether w is s or an out-label of it, and t or an in-label of it.
    fn is_shared(&self, w: u8, s: u8, t: u8) -> bool
        ensures { result ≡ sharing self.now.labels.now s t w }
    {
        (w == s || self.labels.outs.holds(w, s)) && (w == t || self.labels.ins.holds(w, t))
    }

    // The first unit of the order that s with its out-labels and t with its in-labels share.
    fn first_shared(&self, s: u8, t: u8) -> Option<u8>
        ensures { result ≡ find (sharing self.now.labels.now s t) self.now.order.now }
    {
        self.order
            .iter()
            .copied()
            .find(|w| self.is_shared(*w, s, t))
    }

    // The highest unit that s with its out-labels and t with its in-labels share. There is one exactly where t hears s,
    // and then it is the highest unit on any chain from s to t.
    pub fn highest_shared(&self, s: u8, t: u8) -> Option<u8>
        ensures shared { (m : Map) → ExactOf m self.now → result ≡ highest_shared m self.now.order.now s t }
        ensures heard { (m : Map) → KeptOf m self.now → T (m.unit s) → T (m.unit t) → is_some result ≡ is_heard m s t }
        ensures highest { (m : Map) → KeptOf m self.now → T (m.unit s) → T (m.unit t) → (h : ℕ) → (result ≡ Some h) ↔ Highest m (rank_in self.now.order.now) s t h }
    {
        self.first_shared(s, t)
    }

    // All that hear u, which is one of them. This and the next are the two clauses of `reached`, by the names that callers use.
    pub fn hearers(&self, u: u8) -> UnitSet
        ensures { (m : Map) → KeptOf m self.now → T (m.unit u) → (v : ℕ) → has result v ≡ is_heard m u v }
    {
        reached(&self.labels.ins, &self.labels.outs, self.order, u)
    }

    // All that u hears, which is one of them.
    pub fn heard(&self, u: u8) -> UnitSet
        ensures { (m : Map) → KeptOf m self.now → T (m.unit u) → (v : ℕ) → has result v ≡ is_heard m v u }
    {
        reached(&self.labels.outs, &self.labels.ins, self.order, u)
    }
}

// The set of u, and u itself.
fn with_own(table: &Holders, u: u8) -> UnitSet
    ensures { (v : ℕ) → has result v ≡ (v == u || holds table.now u v) }
{
    let mut set = table.of(u);
    set.insert(u);
    set
}

// What some units cover for u: each of them that has u among its out-holders, with its own in-holders.
// With the two tables swapped it is what they cover for u in the turned map.
pub fn cover(ins: &Holders, outs: &Holders, units: &[u8], u: u8) -> UnitSet
    ensures { (y : ℕ) → has result y ≡ covered (holds ins.now) (holds outs.now) units.now u y }
{
    let mut all = UnitSet::empty();
    for w in units {
        if outs.holds(*w, u) {
            all = all.union(&with_own(ins, *w));
        }
    }
    all
}

// All that hear u where the tables are in-holders and out-holders, and all that u hears where they are swapped.
fn reached(ins: &Holders, outs: &Holders, order: &[u8], u: u8) -> UnitSet
    ensures own { (m : Map) → Kept m order.now (record { ins = ins.entry.now; outs = outs.now }) → T (m.unit u) → (v : ℕ) → has result v ≡ is_heard m u v }
    ensures swapped { (m : Map) → Kept m order.now (record { ins = outs.now; outs = ins.entry.now }) → T (m.unit u) → (v : ℕ) → has result v ≡ is_heard m v u }
{
    cover(ins, outs, order, u).union(&with_own(ins, u))
}
