// A map as bits, in fixed memory: the units, and for each unit the set of its listeners and the set of its sources.
ghost use Rattle.grid.specs.Rows.{NoZero, FromStands, ToStands, Apart, TurnedRows};

use units::UnitSet;

#[derive(Drop)]
pub struct Matrix {
    pub(crate) units: UnitSet,
    pub(crate) listeners: [UnitSet; 256],
    pub(crate) sources: [UnitSet; 256],
    ghost zero: { NoZero units },
    ghost from: { FromStands units listeners },
    ghost to: { ToStands units listeners },
    ghost apart: { Apart listeners },
    ghost turned: { TurnedRows listeners sources },
}
