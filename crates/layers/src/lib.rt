// Layers over any map, each a map again, so that they pile in any order: a map turned round, and a map with some of its
// units hidden. A layer holds the map below it by value; a lent map is a map too.
#![tactic(auto)]

ghost use Rattle.std.specs.Prelude.{◌≡◌, ℕ, false};
ghost use Rattle.units.specs.Has.{has};
ghost use Rattle.theory.specs.Maps.{turned, hidden};
ghost use Rattle.layers.specs.Marks.{Hid};

use maps::{Map, StoreFault};
use units::UnitSet;

// A map with every pairing turned round.
#[derive(Drop)]
pub struct Turned<M> {
    below: M,
}

impl<M> Turned<M> {
    pub fn over(below: M) -> Turned<M>
        ensures { result.below ≡ below }
    {
        Turned { below }
    }

    pub fn into_below(self) -> M
        ensures { result ≡ self.below }
    {
        let Turned { below } = self;
        below
    }
}

impl<M: Map> Map for Turned<M> {
    ghost meaning = { λ t. turned (M.Map.meaning t.below) };

    fn sound(&self) {
        self.below.sound()
    }

    fn stands(&self, u: u8) -> bool {
        self.below.stands(u)
    }

    fn paired(&self, a: u8, b: u8) -> bool {
        self.below.paired(b, a)
    }

    fn least_unit_above(&self, c: u8) -> Option<u8> {
        self.below.least_unit_above(c)
    }

    fn least_listener_above(&self, a: u8, c: u8) -> Option<u8> {
        self.below.least_source_above(a, c)
    }

    fn least_source_above(&self, b: u8, c: u8) -> Option<u8> {
        self.below.least_listener_above(b, c)
    }

    fn units(&self) -> UnitSet {
        self.below.units()
    }

    fn listeners(&self, a: u8) -> UnitSet {
        self.below.sources(a)
    }

    fn sources(&self, b: u8) -> UnitSet {
        self.below.listeners(b)
    }
}

// The units that a layer hides.
#[derive(Clone, Copy)]
struct Marks {
    set: UnitSet,
}

impl Marks {
    fn none() -> Marks
        ensures { (k : ℕ) → has result.set k ≡ false }
    {
        Marks {
            set: UnitSet::empty(),
        }
    }

    fn hide(&mut self, u: u8) -> Result<(), StoreFault>
        ensures { Hid (has self.old.set) u result (has self.new.set) }
    {
        if u == 0 {
            return Err(StoreFault::Zero);
        }
        self.set.insert(u);
        Ok(())
    }
}

// A map without the units that are marked, and without their pairings.
#[derive(Drop)]
pub struct Hiding<M> {
    marks: Marks,
    below: M,
}

impl<M> Hiding<M> {
    // With no unit marked.
    pub fn over(below: M) -> Hiding<M>
        ensures below { result.below ≡ below }
        ensures none { (k : ℕ) → has result.marks.set k ≡ false }
    {
        Hiding {
            marks: Marks::none(),
            below,
        }
    }

    // With the units of a set marked.
    pub fn without(below: M, units: UnitSet) -> Hiding<M>
        ensures below { result.below ≡ below }
        ensures marks { result.marks.set ≡ units }
    {
        Hiding {
            marks: Marks { set: units },
            below,
        }
    }

    // Marks u.
    pub fn hide(&mut self, u: u8) -> Result<(), StoreFault>
        ensures below { self.new.below ≡ self.old.below }
        ensures marks { Hid (has self.old.marks.set) u result (has self.new.marks.set) }
    {
        self.marks.hide(u)
    }

    pub fn into_below(self) -> M
        ensures { result ≡ self.below }
    {
        let Hiding { marks: _, below } = self;
        below
    }
}

// Listeners and sources are asked of the map below by their own questions, so that no layer turns it round for that.
impl<M: Map> Map for Hiding<M> {
    ghost meaning = { λ h. hidden (has h.marks.set) (M.Map.meaning h.below) };

    fn sound(&self) {
        self.below.sound()
    }

    fn stands(&self, u: u8) -> bool {
        !self.marks.set.contains(u) && self.below.stands(u)
    }

    fn paired(&self, a: u8, b: u8) -> bool {
        !self.marks.set.contains(a) && !self.marks.set.contains(b) && self.below.paired(a, b)
    }

    fn least_unit_above(&self, c: u8) -> Option<u8> {
        self.units().least_above(c)
    }

    fn least_listener_above(&self, a: u8, c: u8) -> Option<u8> {
        self.listeners(a).least_above(c)
    }

    fn least_source_above(&self, b: u8, c: u8) -> Option<u8> {
        self.sources(b).least_above(c)
    }

    fn units(&self) -> UnitSet {
        self.below.units().minus(&self.marks.set)
    }

    fn listeners(&self, a: u8) -> UnitSet {
        if self.marks.set.contains(a) {
            return UnitSet::empty();
        }
        self.below.listeners(a).minus(&self.marks.set)
    }

    fn sources(&self, b: u8) -> UnitSet {
        if self.marks.set.contains(b) {
            return UnitSet::empty();
        }
        self.below.sources(b).minus(&self.marks.set)
    }
}
