// A matrix with the number of its pairings, of which there is room for 8,000.
ghost use Rattle.std.specs.Prelude.{◌≤◌};
ghost use Rattle.grid.specs.Meaning.{Counted};

use crate::matrix::Matrix;

#[derive(Drop)]
pub struct Grid {
    pub(crate) matrix: Matrix,
    pub(crate) count: u16,
    ghost counted: { Counted matrix count },
    ghost within: { count ≤ 8000 },
}
