// A copy of any map in any store.
ghost use Rattle.std.specs.Prelude.{◌≡◌, ◌+◌, ◌≤◌, Ok, Err};
ghost use Rattle.theory.specs.Maps.{nothing};
ghost use Rattle.theory.specs.Counts.{pair_count};
ghost use Rattle.maps.specs.Changes.{Copied};
ghost use Rattle.maps.specs.Copies.{unpaired, rows_below};

use crate::{Map, Store, StoreFault};

// Makes the store hold the map `from`, in place of what it held. Refused, with nothing changed, where the store has no room
// for so many pairings.
pub fn copy_map<M: Map, S: Store>(from: &M, into: &mut S) -> Result<(), StoreFault>
    ensures copied { Copied (M.Map.meaning from.now) (S.Map.meaning into.old) S.Store.room result (S.Map.meaning into.new) }
    ensures kept { (fault : StoreFault) → result ≡ Err fault → into.new ≡ into.old }
{
    if pairings_of(from) > u32::from(into.capacity()) {
        return Err(StoreFault::Full);
    }
    into.clear();
    put_units(from, into)?;
    join_rows(from, into)?;
    Ok(())
}

// How many pairings a map has. The loops of this file go over all numbers, each a unit's, and not along a slice. The invariant
// here carries the bound of the total along; a chain's `sum` would need it told before, and be no plainer.
fn pairings_of<M: Map>(from: &M) -> u32
    ensures { result ≡ pair_count (M.Map.meaning from.now) }
{
    let mut total = 0;
    for a in 0..=u8::MAX {
        total += u32::from(from.listeners(a).len());
    }
    total
}

// Puts the units of the map into an empty store.
fn put_units<M: Map, S: Store>(from: &M, into: &mut S) -> Result<(), StoreFault>
    requires { S.Map.meaning into.old ≡ nothing }
    ensures granted { result ≡ Ok tt }
    ensures left { S.Map.meaning into.new ≡ unpaired (M.Map.meaning from.now) }
{
    from.sound();
    let units = from.units();
    for u in units.iter() {
        into.put(u)?;
    }
    Ok(())
}

// Joins every pairing of the map in a store that has its units.
fn join_rows<M: Map, S: Store>(from: &M, into: &mut S) -> Result<(), StoreFault>
    requires unjoined { S.Map.meaning into.old ≡ unpaired (M.Map.meaning from.now) }
    requires fits { pair_count (M.Map.meaning from.now) ≤ S.Store.room }
    ensures granted { result ≡ Ok tt }
    ensures left { S.Map.meaning into.new ≡ M.Map.meaning from.now }
{
    from.sound();
    for a in 0..=u8::MAX {
        join_row(from, a, into)?;
    }
    Ok(())
}

// Joins the pairings that lead from a, in a store that has those that lead from the units below a.
fn join_row<M: Map, S: Store>(from: &M, a: u8, into: &mut S) -> Result<(), StoreFault>
    requires joined { S.Map.meaning into.old ≡ rows_below a (M.Map.meaning from.now) }
    requires fits { pair_count (M.Map.meaning from.now) ≤ S.Store.room }
    ensures granted { result ≡ Ok tt }
    ensures left { S.Map.meaning into.new ≡ rows_below (a + 1) (M.Map.meaning from.now) }
{
    from.sound();
    let listeners = from.listeners(a);
    for b in listeners.iter() {
        into.join(a, b)?;
    }
    Ok(())
}
