// What a page says: the units in rank order, and the map of its units and pairings.
use grid::Matrix;
use ranks::Ranks;

#[derive(Drop)]
pub struct Contents {
    pub ranks: Ranks,
    pub map: Matrix,
}
