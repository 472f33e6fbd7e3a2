// A set for each number from 0 to 255.
ghost use Rattle.std.specs.Prelude.{◌≡◌, ℕ, not, ◌&&◌, ◌||◌, ◌==◌};
ghost use Rattle.units.specs.Has.{has};
ghost use Rattle.units.specs.Has.{in_row};

use maps::Map;
use units::{UnitSet, empty_rows};

// The set of the listeners of each number.
pub(crate) fn listener_rows<M: Map>(m: &M) -> [UnitSet; 256]
    ensures { (x y : ℕ) → in_row result x y ≡ (M.Map.meaning m.now).pair x y }
{
    m.sound();
    let mut rows = empty_rows();
    for (a, row) in rows.iter_mut().enumerate() {
        *row = m.listeners(a as u8);
    }
    rows
}

// Puts y into the set of x.
pub(crate) fn insert_at(rows: &mut [UnitSet; 256], x: u8, y: u8)
    ensures { (p q : ℕ) → in_row rows.new p q ≡ ((p == x && q == y) || in_row rows.old p q) }
{
    rows[x as usize].insert(y);
}

// Takes y out of the set of x.
pub(crate) fn remove_at(rows: &mut [UnitSet; 256], x: u8, y: u8)
    ensures { (p q : ℕ) → in_row rows.new p q ≡ (not (p == x && q == y) && in_row rows.old p q) }
{
    rows[x as usize].remove(y);
}

// Takes y out of the set of each member of `among`. It differs from the next in what it does, not in a type or a number, and so
// do the two above: a closure for that would be no plainer.
#[tactic(auto, using(crate::proofs::Removing::none_removed, crate::proofs::Removing::more_removed))]
pub(crate) fn remove_among(rows: &mut [UnitSet; 256], among: &UnitSet, y: u8)
    ensures { (p q : ℕ) → in_row rows.new p q ≡ (not (has among.now p && q == y) && in_row rows.old p q) }
{
    for x in among.iter() {
        remove_at(rows, x, y);
    }
}

// Puts y into the set of each member of `among`.
fn insert_among(rows: &mut [UnitSet; 256], among: &UnitSet, y: u8)
    ensures { (p q : ℕ) → in_row rows.new p q ≡ ((has among.now p && q == y) || in_row rows.old p q) }
{
    for x in among.iter() {
        insert_at(rows, x, y);
    }
}

// The sets the other way round: x is in the set of y where y is in that of x.
pub(crate) fn transposed(rows: &[UnitSet; 256]) -> [UnitSet; 256]
    ensures { (x y : ℕ) → in_row result y x ≡ in_row rows.now x y }
{
    let mut turned = empty_rows();
    for (x, row) in rows.iter().enumerate() {
        insert_among(&mut turned, row, x as u8);
    }
    turned
}
