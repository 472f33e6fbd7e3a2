// A rank for a new unit, and the total of labels that the book would have with the unit there.
#[derive(Clone, Copy, PartialEq, Eq, Debug)]
pub struct Place {
    pub rank: u8,
    pub total: u32,
}
