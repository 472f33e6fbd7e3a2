// The members of a set one by one, the least first.
ghost use Rattle.std.specs.Iterator.{YieldsFirst, item_count};
ghost use Rattle.units.specs.Listed.{left};

use crate::UnitSet;

#[derive(Clone, Copy)]
pub struct Members {
    pub(crate) rest: UnitSet,
}

impl Iterator for Members {
    type Item = u8;

    ghost next_gives = { YieldsFirst left };

    ghost remaining = { item_count left };

    #[tactic(auto, using(crate::proofs::Listing::first_members, crate::proofs::Listing::no_members))]
    fn next(&mut self) -> Option<u8> {
        let least = self.rest.least_from(0)?;
        self.rest.remove(least);
        Some(least)
    }
}
