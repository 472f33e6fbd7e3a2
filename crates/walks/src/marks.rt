// Where a search keeps which units it has seen: in a set of its own, or in marks on what a caller lends.
ghost use Rattle.std.specs.Prelude.{◌≡◌, ℕ, Bool, false, not, ◌&&◌, ◌||◌, List, []};
ghost use Rattle.units.specs.Has.{has};

use units::UnitSet;

pub trait Marks {
    // Whether a unit is marked.
    ghost marked: { Self → ℕ → Bool };

    // What the marks are written on, which they leave as it was: where it is, and what it holds besides the marks.
    ghost below: { Self → ℕ × List ℕ };

    // Marks the units of the set besides.
    fn mark(&mut self, set: &UnitSet)
        requires { has set.now 0 ≡ false }
        ensures marked { (k : ℕ) → marked self.new k ≡ (marked self.old k || has set.now k) }
        ensures below { below self.new ≡ below self.old };

    // The units of the set that are not marked.
    fn unmarked(&self, set: &UnitSet) -> UnitSet
        ensures { (k : ℕ) → has result k ≡ (has set.now k && not (marked self.now k)) };
}

// A set of its own.
impl Marks for UnitSet {
    ghost marked = { has };

    ghost below = { λ _. (0, []) };

    fn mark(&mut self, set: &UnitSet) {
        *self = self.union(set);
    }

    fn unmarked(&self, set: &UnitSet) -> UnitSet {
        set.minus(self)
    }
}
