// The plain named book: what lines mean to a book whose units have names, what they are answered, and what a whole log makes
// of the book. There is no other code here than what pins the laws.
#![tactic(auto)]

ghost use Rattle.plain_named.specs.Theorems.{StaysWellNamed, PlacesNear, FieldsPlaced, NeverUnknown};

// Names stand for units from the empty book on, after every line.
pub fn stays_well_named() -> u8
    ensures { StaysWellNamed }
{
    0
}

// No refusal is told at a place past 36.
pub fn places_near() -> u8
    ensures { PlacesNear }
{
    0
}

// Each field of a line is written where it is said to begin.
pub fn fields_placed() -> u8
    ensures { FieldsPlaced }
{
    0
}

// No line is refused because a unit does not stand: its name is unknown then, and that is told first.
pub fn never_unknown() -> u8
    ensures { NeverUnknown }
{
    0
}
