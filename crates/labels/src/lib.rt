// The labels that a book keeps: for each unit the set of its in-holders and the set of its out-holders, and what is asked
// of them in the order of rank. Nothing else is kept: u is an in-label of v exactly when v is among the in-holders of u.
#![tactic(auto)]

ghost use Rattle.std.specs.Prelude.{◌≡◌, ℕ, false, if◌then◌else◌, nat_eq};
ghost use Rattle.units.specs.Has.{has};
ghost use Rattle.labels.specs.Holding.{holds};

use units::{UnitSet, empty_rows};

mod lists;
mod ranked;

pub use lists::{List, ShortBuffer};
pub use ranked::{Ranked, cover};

// A set of units for each unit, in fixed memory.
#[derive(Clone, Copy)]
pub struct Holders {
    sets: [UnitSet; 256],
}

impl Holders {
    pub fn empty() -> Holders
        ensures { (u v : ℕ) → holds result u v ≡ false }
    {
        Holders { sets: empty_rows() }
    }

    // The set of u.
    pub fn of(&self, u: u8) -> UnitSet
        ensures { (v : ℕ) → has result v ≡ holds self.now u v }
    {
        let place = u as usize;
        self.sets[place]
    }

    // Whether v is in the set of u.
    pub fn holds(&self, u: u8, v: u8) -> bool
        ensures { result ≡ holds self.now u v }
    {
        self.sets[u as usize].contains(v)
    }

    // Makes the set of u another one.
    pub fn set(&mut self, u: u8, set: UnitSet)
        ensures { (x v : ℕ) → holds self.new x v ≡ (if nat_eq x u then has set v else holds self.old x v) }
    {
        self.sets[u as usize] = set;
    }
}

// The in-holders and the out-holders of every unit.
#[derive(Clone, Copy)]
pub struct Labels {
    pub ins: Holders,
    pub outs: Holders,
}

impl Labels {
    // No label.
    pub fn empty() -> Labels
        ensures ins { (u v : ℕ) → holds result.ins u v ≡ false }
        ensures outs { (u v : ℕ) → holds result.outs u v ≡ false }
    {
        Labels {
            ins: Holders::empty(),
            outs: Holders::empty(),
        }
    }
}
