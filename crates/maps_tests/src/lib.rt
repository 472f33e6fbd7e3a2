// What maps, stores, layers and searches do together: small uses of them with contracts, and tests. The loops of the tests go
// over the numbers of units, and not along a slice; each turn may be refused, and ends the loop then.
#![tactic(auto)]

ghost use Rattle.std.specs.Prelude.{◌≡◌, ℕ, ◌&&◌, Some, MatchResult, nat_eq};
ghost use Rattle.units.specs.Has.{has};
ghost use Rattle.units.specs.Sets.{Least};
ghost use Rattle.theory.specs.Maps.{with_unit, without_unit, without_pair, turned, hidden};
ghost use Rattle.theory.specs.Chains.{FewestOrNone};
ghost use Rattle.theory.specs.Counts.{pair_count};
ghost use Rattle.theory.specs.Hearing.{is_heard};
ghost use Rattle.maps.specs.Changes.{Done, take_cause, part_cause, room_for};
ghost use Rattle.grid.specs.Held.{grid_map};

use grid::Grid;
use layers::{Hiding, Turned};
use maps::{Map, Store, StoreFault};
use units::UnitSet;
use walks::{fewest_pairings, heard_from};

// Whether each of the two is paired to the other.
pub fn both_ways<M: Map>(m: &M, a: u8, b: u8) -> bool
    ensures { result ≡ ((M.Map.meaning m.now).pair a b && (M.Map.meaning m.now).pair b a) }
{
    m.paired(a, b) && m.sources(a).contains(b)
}

// The least source of a unit.
pub fn first_source<M: Map>(m: &M, b: u8) -> Option<u8>
    ensures { Least (λ a. (M.Map.meaning m.now).pair a b) 1 result }
{
    m.least_source_above(b, 0)
}

// Whether two pairings more fit.
pub fn fits_two<S: Store>(s: &S) -> Result<(), StoreFault>
    ensures { result ≡ room_for (pair_count (S.Map.meaning s.now)) 2 S.Store.room }
{
    s.has_room(2)
}

// Takes all pairings of u away.
pub fn unpair_all<S: Store>(s: &mut S, u: u8) -> Result<(), StoreFault>
    ensures { Done (take_cause (S.Map.meaning s.old) u) (S.Map.meaning s.old) (with_unit u (without_unit u (S.Map.meaning s.old))) result (S.Map.meaning s.new) }
{
    s.sound();
    s.take(u)?;
    s.put(u)
}

// Unpairs a from b, and answers how many pairings are left.
pub fn part_and_count<S: Store>(s: &mut S, a: u8, b: u8) -> Result<u16, StoreFault>
    ensures { MatchResult result (λ n. (S.Map.meaning s.new ≡ without_pair a b (S.Map.meaning s.old)) × (n ≡ pair_count (without_pair a b (S.Map.meaning s.old)))) (λ fault. (part_cause (S.Map.meaning s.old) a b ≡ Some fault) × (S.Map.meaning s.new ≡ S.Map.meaning s.old)) }
{
    s.part(a, b)?;
    Ok(s.pairings())
}

// The units that s hears while v is hidden, over a grid that is given away.
pub fn sources_without(grid: Grid, v: u8, s: u8) -> Result<UnitSet, StoreFault>
    ensures { MatchResult result (λ got. (t : ℕ) → has got t ≡ is_heard (hidden (λ k. nat_eq k v) (turned (grid_map grid))) s t) (λ _. v ≡ 0) }
{
    let mut pile = Hiding::over(Turned::over(grid));
    pile.hide(v)?;
    Ok(heard_from(&pile, s))
}

// The fewest pairings from s to t while the units of a set are hidden, over any map, which is lent.
pub fn fewest_outside<M: Map>(m: &M, marks: &UnitSet, s: u8, t: u8) -> Option<u16>
    ensures { FewestOrNone (turned (hidden (has marks.now) (turned (M.Map.meaning m.now)))) s t result }
{
    let pile = Turned::over(Hiding::without(Turned::over(m), *marks));
    fewest_pairings(&pile, s, t)
}

#[cfg(test)]
mod tests {
    use super::*;
    use grid::Matrix;
    use maps::copy_map;
    use std::process::Abort;
    use std::test::Fail;

    // Puts the units from 1 to n into the store.
    fn put_to<S: Store>(s: &mut S, n: u8) -> Result<(), StoreFault> {
        for u in 1..=n {
            s.put(u)?;
        }
        Ok(())
    }

    // Pairs a to every other unit from 1 to n, or to as many as there is room for.
    fn pair_to_all<S: Store>(s: &mut S, a: u8, n: u8) -> Result<(), StoreFault> {
        for u in 1..=n {
            if u != a {
                s.join(a, u)?;
            }
        }
        Ok(())
    }

    // Pairs each unit from 1 to n to every other, as long as there is room.
    fn fill<S: Store>(s: &mut S, n: u8) -> Result<(), StoreFault> {
        for u in 1..=n {
            pair_to_all(s, u, n)?;
        }
        Ok(())
    }

    // A grid with the units 1 to 5: 1 to 2, 2 to 3, 1 to 4, 4 to 3, 3 to 5.
    fn small() -> Result<Grid, StoreFault> {
        let mut g = Grid::new();
        put_to(&mut g, 5)?;
        g.join(1, 2)?;
        g.join(2, 3)?;
        g.join(1, 4)?;
        g.join(4, 3)?;
        g.join(3, 5)?;
        Ok(g)
    }

    // A grid with as many pairings as it has room for, among the units 1 to 90: all but 90 to 80 and on.
    fn full(rt: &impl Abort) -> Result<Grid, Fail> {
        let mut g = Grid::new();
        put_to(&mut g, 90)?;
        assert_eq!(rt; fill(&mut g, 90), Err(StoreFault::Full));
        Ok(g)
    }

    #[test]
    fn fills(rt: HostRuntime) -> Result<(), Fail> {
        let g = full(&rt)?;
        assert_eq!(rt; g.pairings(), g.capacity());
        assert_eq!(rt; g.has_room(0), Ok(()));
        assert_eq!(rt; g.has_room(1), Err(StoreFault::Full));
        Ok(())
    }

    #[test]
    fn frees_and_refills(rt: HostRuntime) -> Result<(), Fail> {
        let mut g = full(&rt)?;
        assert_eq!(rt; part_and_count(&mut g, 1, 2)?, 7999);
        g.join(90, 89)?;
        assert_eq!(rt; g.join(1, 2), Err(StoreFault::Full));
        Ok(())
    }

    #[test]
    fn takes_and_refills(rt: HostRuntime) -> Result<(), Fail> {
        let mut g = full(&rt)?;
        unpair_all(&mut g, 1)?;
        assert_eq!(rt; g.pairings(), 7822);
        assert!(rt; g.sources(2).least_above(0) == Some(3));
        g.join(1, 2)?;
        assert_eq!(rt; g.has_room(178), Err(StoreFault::Full));
        Ok(())
    }

    #[test]
    fn first_cause_at_capacity(rt: HostRuntime) -> Result<(), Fail> {
        let mut g = full(&rt)?;
        assert_eq!(rt; g.join(91, 91), Err(StoreFault::Unknown));
        assert_eq!(rt; g.join(1, 1), Err(StoreFault::SameUnit));
        assert_eq!(rt; g.join(1, 2), Err(StoreFault::AlreadyPaired));
        assert_eq!(rt; g.join(90, 88), Err(StoreFault::Full));
        Ok(())
    }

    #[test]
    fn puts_and_takes_refused(rt: HostRuntime) -> Result<(), Fail> {
        let mut g = small()?;
        assert_eq!(rt; g.put(0), Err(StoreFault::Zero));
        assert_eq!(rt; g.put(5), Err(StoreFault::Standing));
        assert_eq!(rt; g.take(0), Err(StoreFault::Unknown));
        assert_eq!(rt; g.take(6), Err(StoreFault::Unknown));
        Ok(())
    }

    #[test]
    fn joins_refused(rt: HostRuntime) -> Result<(), Fail> {
        let mut g = small()?;
        assert_eq!(rt; g.join(6, 6), Err(StoreFault::Unknown));
        assert_eq!(rt; g.join(1, 6), Err(StoreFault::Unknown));
        assert_eq!(rt; g.join(5, 5), Err(StoreFault::SameUnit));
        assert_eq!(rt; g.join(1, 2), Err(StoreFault::AlreadyPaired));
        Ok(())
    }

    #[test]
    fn parts_refused(rt: HostRuntime) -> Result<(), Fail> {
        let mut g = small()?;
        assert_eq!(rt; g.part(1, 6), Err(StoreFault::Unknown));
        assert_eq!(rt; g.part(1, 1), Err(StoreFault::NotPaired));
        assert_eq!(rt; g.part(2, 1), Err(StoreFault::NotPaired));
        assert_eq!(rt; g.pairings(), 5);
        Ok(())
    }

    #[test]
    fn copies(rt: HostRuntime) -> Result<(), Fail> {
        let g = small()?;
        let mut other = Grid::new();
        other.put(9)?;
        copy_map(&Turned::over(&g), &mut other)?;
        assert!(rt; !other.stands(9));
        assert!(rt; other.paired(5, 3));
        assert_eq!(rt; other.pairings(), 5);
        let matrix = Matrix::copy_of(&Hiding::without(&other, g.listeners(1)));
        assert_eq!(rt; matrix.units().len(), 3);
        assert_eq!(rt; matrix.listeners(5).least_above(0), Some(3));
        assert!(rt; matrix.listeners(3).is_empty());
        Ok(())
    }

    #[test]
    fn fewest_in_a_pile(rt: HostRuntime) -> Result<(), Fail> {
        let g = small()?;
        let mut marks = UnitSet::empty();
        marks.insert(2);
        assert_eq!(rt; fewest_outside(&g, &marks, 1, 5), Some(3));
        marks.insert(4);
        assert_eq!(rt; fewest_outside(&g, &marks, 1, 5), None);
        assert_eq!(rt; fewest_outside(&g, &marks, 2, 2), None);
        assert_eq!(rt; fewest_pairings(&g, 1, 1), Some(0));
        Ok(())
    }

    #[test]
    fn heard_in_a_pile(rt: HostRuntime) -> Result<(), Fail> {
        assert_eq!(rt; sources_without(small()?, 3, 5)?.len(), 1);
        let mut pile = Hiding::over(small()?);
        assert_eq!(rt; pile.hide(0), Err(StoreFault::Zero));
        pile.hide(4)?;
        assert_eq!(rt; heard_from(&pile, 1).len(), 4);
        assert_eq!(rt; pile.least_source_above(3, 0), Some(2));
        Ok(())
    }
}
