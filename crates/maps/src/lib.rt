// What a map of units and pairings answers, and what a store of one does: the traits, with the meaning of every call, and
// what is written once for all of them.
#![tactic(auto)]

ghost use Rattle.std.specs.Prelude.{◌≡◌, ℕ, ◌+◌, ◌≤◌};
ghost use Rattle.units.specs.Has.{has};
ghost use Rattle.units.specs.Sets.{Least};
ghost use Rattle.theory.specs.Maps.{Map, Sound, nothing};
ghost use Rattle.theory.specs.Counts.{pair_count};
ghost use Rattle.maps.specs.Changes.{Put, Taken, Joined, Parted, room_for};

use units::UnitSet;

mod copy;
mod fault;
mod gathering;

pub use copy::copy_map;
pub use fault::StoreFault;
use gathering::gathered;

// The questions that any map answers. About a number that is no unit it says no, or none, since no pairing has it.
pub trait Map {
    ghost meaning: { Self → Map };

    // Does nothing: its contract is what holds of every map. (A law would say the same, but then no map could borrow.)
    fn sound(&self)
        ensures { Sound (meaning self.now) };

    // Whether u is a unit.
    fn stands(&self, u: u8) -> bool
        ensures { result ≡ (meaning self.now).unit u };

    // Whether a is paired to b.
    fn paired(&self, a: u8, b: u8) -> bool
        ensures { result ≡ (meaning self.now).pair a b };

    // The least unit that is greater than c.
    fn least_unit_above(&self, c: u8) -> Option<u8>
        ensures { Least (meaning self.now).unit (c + 1) result };

    // The least unit greater than c that a is paired to.
    fn least_listener_above(&self, a: u8, c: u8) -> Option<u8>
        ensures { Least ((meaning self.now).pair a) (c + 1) result };

    // The least unit greater than c that is paired to b.
    fn least_source_above(&self, b: u8, c: u8) -> Option<u8>
        ensures { Least (λ a. (meaning self.now).pair a b) (c + 1) result };

    // All units.
    fn units(&self) -> UnitSet
        ensures { (k : ℕ) → has result k ≡ (meaning self.now).unit k }
    {
        self.sound();
        gathered(|c| self.least_unit_above(c))
    }

    // The units that a is paired to.
    fn listeners(&self, a: u8) -> UnitSet
        ensures { (k : ℕ) → has result k ≡ (meaning self.now).pair a k }
    {
        self.sound();
        gathered(|c| self.least_listener_above(a, c))
    }

    // The units that are paired to b.
    fn sources(&self, b: u8) -> UnitSet
        ensures { (k : ℕ) → has result k ≡ (meaning self.now).pair k b }
    {
        self.sound();
        gathered(|c| self.least_source_above(b, c))
    }
}

// A map that is lent is a map. Each question is passed on by hand: there is no plainer form.
impl<M: Map> Map for &M {
    ghost meaning = { λ m. M.Map.meaning m.now };

    fn sound(&self) {
        (**self).sound()
    }

    fn stands(&self, u: u8) -> bool {
        (**self).stands(u)
    }

    fn paired(&self, a: u8, b: u8) -> bool {
        (**self).paired(a, b)
    }

    fn least_unit_above(&self, c: u8) -> Option<u8> {
        (**self).least_unit_above(c)
    }

    fn least_listener_above(&self, a: u8, c: u8) -> Option<u8> {
        (**self).least_listener_above(a, c)
    }

    fn least_source_above(&self, b: u8, c: u8) -> Option<u8> {
        (**self).least_source_above(b, c)
    }

    fn units(&self) -> UnitSet {
        (**self).units()
    }

    fn listeners(&self, a: u8) -> UnitSet {
        (**self).listeners(a)
    }

    fn sources(&self, b: u8) -> UnitSet {
        (**self).sources(b)
    }
}

// A map that is kept and changed, with room for a number of pairings that depends on the kind of store alone.
// A change that is refused leaves the map as it was.
pub trait Store: Map {
    ghost room: { ℕ };

    // How many pairings there are.
    fn pairings(&self) -> u16
        ensures number { result ≡ pair_count (Self.Map.meaning self.now) }
        ensures within { result ≤ room };

    // How many pairings there can be.
    fn capacity(&self) -> u16
        ensures number { result ≡ room }
        ensures some { 1 ≤ result }
        ensures most { result ≤ 8000 };

    // Takes every unit and every pairing out.
    fn clear(&mut self)
        ensures { Self.Map.meaning self.new ≡ nothing };

    // Puts the unit u in, unpaired.
    fn put(&mut self, u: u8) -> Result<(), StoreFault>
        ensures { Put (Self.Map.meaning self.old) u result (Self.Map.meaning self.new) };

    // Takes the unit u out, with its pairings.
    fn take(&mut self, u: u8) -> Result<(), StoreFault>
        ensures { Taken (Self.Map.meaning self.old) u result (Self.Map.meaning self.new) };

    // Pairs a to b.
    fn join(&mut self, a: u8, b: u8) -> Result<(), StoreFault>
        ensures { Joined (Self.Map.meaning self.old) room a b result (Self.Map.meaning self.new) };

    // Unpairs a from b.
    fn part(&mut self, a: u8, b: u8) -> Result<(), StoreFault>
        ensures { Parted (Self.Map.meaning self.old) a b result (Self.Map.meaning self.new) };

    // Whether so many pairings more fit.
    fn has_room(&self, more: usize) -> Result<(), StoreFault>
        ensures { result ≡ room_for (pair_count (Self.Map.meaning self.now)) more room }
    {
        let free = self.capacity() - self.pairings();
        if more <= free as usize {
            Ok(())
        } else {
            Err(StoreFault::Full)
        }
    }
}
