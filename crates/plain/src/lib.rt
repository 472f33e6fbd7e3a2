// The plain book: what a book means, as a list of units from rank 1 down and a set of pairings; every request that can be
// put to it, when it is refused and what it changes. The code here is only the faults that a refusal answers with.
#![tactic(auto)]

ghost use Rattle.std.specs.Prelude.{◌≡◌};
ghost use Rattle.plain.specs.Faults.{book_number, book_letter};
ghost use Rattle.plain.specs.declared.BookFault.TheVariants.{Store};

use maps::StoreFault;

// Why a book refuses a call.
#[derive(Clone, Copy, PartialEq, Eq, Debug)]
pub enum BookFault {
    // 0 is no unit's number
    Zero,
    // the unit to enrol is there already
    Standing,
    // no unit can have the rank
    RankOutside,
    // a named unit is not there
    Unknown,
    // a unit twice in one list
    Doubled,
    // a chain would come back to its first unit
    Ring,
    AlreadyPaired,
    NotPaired,
    ShortBuffer,
    // an off sheet is not 255 bytes of 0 and 1
    BadSheet,
    UnlawfulPage,
    // what the store below refuses, carried whole
    Store(StoreFault),
}

// Written out: a derived one would not say what it gives.
impl From<StoreFault> for BookFault {
    ghost from_gives = { λ e r. r ≡ Store e };

    fn from(e: StoreFault) -> BookFault {
        BookFault::Store(e)
    }
}

impl BookFault {
    // The number that is shown for the fault. No discriminant, since one variant carries the number of another fault.
    pub fn number(self) -> u8
        ensures { result ≡ book_number self }
    {
        match self {
            BookFault::Zero => 1,
            BookFault::Standing => 2,
            BookFault::RankOutside => 3,
            BookFault::Unknown => 4,
            BookFault::Doubled => 5,
            BookFault::Ring => 6,
            BookFault::AlreadyPaired => 8,
            BookFault::NotPaired => 9,
            BookFault::ShortBuffer => 10,
            BookFault::BadSheet => 11,
            BookFault::UnlawfulPage => 15,
            BookFault::Store(fault) => fault.number(),
        }
    }

    // The letter of the layer that refuses.
    pub fn letter(self) -> u8
        ensures { result ≡ book_letter self }
    {
        match self {
            BookFault::Store(fault) => fault.letter(),
            _ => b'B',
        }
    }
}
