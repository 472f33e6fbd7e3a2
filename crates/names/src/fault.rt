// Why a name of a line is refused.
ghost use Rattle.std.specs.Prelude.{◌≡◌};
ghost use Rattle.names.specs.Faults.{name_number, name_letter, name_place};

// Each holds the place of the line where the name begins, counted from 1.
#[derive(Clone, Copy, PartialEq, Eq, Debug)]
pub enum NameFault {
    // no unit has the name
    Unknown(u8),
    // a unit has the name already
    Taken(u8),
}

impl NameFault {
    // The number that is shown for the fault. Each variant holds a place, so the number is no discriminant.
    pub fn number(self) -> u8
        ensures { result ≡ name_number self }
    {
        match self {
            NameFault::Unknown(_) => 13,
            NameFault::Taken(_) => 14,
        }
    }

    // The letter of the layer that refuses: of the names.
    pub fn letter(self) -> u8
        ensures { result ≡ name_letter self }
    {
        b'N'
    }

    // Where the name begins.
    pub fn place(self) -> u8
        ensures { result ≡ name_place self }
    {
        match self {
            NameFault::Unknown(place) | NameFault::Taken(place) => place,
        }
    }
}
