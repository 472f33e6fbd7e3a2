// Whether pairings lead back to where they began.
ghost use Rattle.std.specs.Prelude.{◌≡◌, ◌&&◌};
ghost use Rattle.units.specs.Has.{in_row};
ghost use Rattle.units.specs.Sets.{Inhabited};
ghost use Rattle.theory.specs.Hearing.{is_heard};
ghost use Rattle.plain.specs.Lists.{some};
ghost use Rattle.page.specs.Rings.{Ringed};

use maps::Map;
use units::UnitSet;
use walks::heard_from;

// Whether a unit of the order is in its own set.
pub(crate) fn pairs_itself(rows: &[UnitSet; 256], order: &[u8]) -> bool
    ensures { result ≡ some (λ a. in_row rows.now a a) order.now }
{
    order.iter().any(|a| rows[usize::from(*a)].contains(*a))
}

// Whether a unit that hears b is paired to it.
fn closes_ring<M: Map>(m: &M, b: u8) -> bool
    ensures { Inhabited result (λ a. is_heard (M.Map.meaning m.now) b a && (M.Map.meaning m.now).pair a b) }
{
    heard_from(m, b).intersects(&m.sources(b))
}

// Whether some unit is paired to one that it hears. A `for`, since what is asked of a unit is no test of it alone.
pub(crate) fn has_ring<M: Map>(m: &M) -> bool
    ensures { Ringed result (M.Map.meaning m.now) }
{
    m.sound();
    let units = m.units();
    for b in units.iter() {
        if closes_ring(m, b) {
            return true;
        }
    }
    false
}
