// Why a store refuses a change.
ghost use Rattle.std.specs.Prelude.{◌≡◌};
ghost use Rattle.maps.specs.Faults.{store_number, store_letter};

#[derive(Clone, Copy, PartialEq, Eq, Debug)]
pub enum StoreFault {
    // 0 is no unit's number
    Zero,
    // the unit is there already
    Standing,
    // there is no such unit
    Unknown,
    // a unit is not paired to itself
    SameUnit,
    // there are as many pairings as there is room for
    Full,
    AlreadyPaired,
    NotPaired,
}

impl StoreFault {
    // The number that is shown for the fault; shown numbers stand in one form for all faults, and not as discriminants.
    pub fn number(self) -> u8
        ensures { result ≡ store_number self }
    {
        match self {
            StoreFault::Zero => 1,
            StoreFault::Standing => 2,
            StoreFault::Unknown => 4,
            StoreFault::SameUnit => 6,
            StoreFault::Full => 7,
            StoreFault::AlreadyPaired => 8,
            StoreFault::NotPaired => 9,
        }
    }

    // The letter of the layer that refuses: of the store.
    pub fn letter(self) -> u8
        ensures { result ≡ store_letter self }
    {
        b'S'
    }
}
