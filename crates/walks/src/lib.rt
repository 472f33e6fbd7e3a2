// Searches along the pairings of a map, written once for every map. They go level by level: from the units first seen
// with n pairings to those first seen with one more. The loops are `while`s, since each level is made from the one before,
// and the library's `successors` has no end that a proof could use.
#![tactic(auto)]

ghost use Rattle.std.specs.Prelude.{◌≡◌, ℕ, ◌≤◌, false, ◌||◌, IfSome, ◌==◌};
ghost use Rattle.units.specs.Has.{has};
ghost use Rattle.theory.specs.Chains.{FewestOrNone};
ghost use Rattle.theory.specs.Hearing.{is_heard};
ghost use Rattle.walks.specs.Levels.{Listeners, Next};

use maps::Map;
use units::UnitSet;

mod marks;

pub use marks::Marks;

// The units that hear s. It is one of them, where it stands; else there is none.
pub fn heard_from<M: Map>(m: &M, s: u8) -> UnitSet
    ensures { (t : ℕ) → has result t ≡ is_heard (M.Map.meaning m.now) s t }
{
    m.sound();
    if !m.stands(s) {
        return UnitSet::empty();
    }
    let mut seen = only(s);
    let mut level = seen;
    while !level.is_empty() {
        level = next_level(m, &level, &mut seen);
    }
    seen
}

// The fewest pairings of a chain from s to t, where there is a chain.
pub fn fewest_pairings<M: Map>(m: &M, s: u8, t: u8) -> Option<u16>
    ensures { FewestOrNone (M.Map.meaning m.now) s t result }
{
    fewest_pairings_marking(m, s, t, &mut UnitSet::empty())
}

// The same, where what was seen is marked where the caller tells, and nothing was marked before.
pub fn fewest_pairings_marking<M: Map, K: Marks>(m: &M, s: u8, t: u8, seen: &mut K) -> Option<u16>
    requires { (k : ℕ) → K.Marks.marked seen.old k ≡ false }
    ensures fewest { FewestOrNone (M.Map.meaning m.now) s t result }
    ensures few { IfSome result (λ n. n ≤ 255) }
    ensures below { K.Marks.below seen.new ≡ K.Marks.below seen.old }
{
    m.sound();
    if !m.stands(s) {
        return None;
    }
    let mut level = only(s);
    seen.mark(&level);
    let mut n = 0;
    while !level.is_empty() {
        if level.contains(t) {
            return Some(n);
        }
        level = next_level(m, &level, seen);
        n += 1;
    }
    None
}

// The set whose one member is s.
fn only(s: u8) -> UnitSet
    ensures { (k : ℕ) → has result k ≡ (k == s) }
{
    let mut set = UnitSet::empty();
    set.insert(s);
    set
}

// The set with the units that x is paired to besides.
fn with_listeners<M: Map>(m: &M, set: &UnitSet, x: u8) -> UnitSet
    ensures { (k : ℕ) → has result k ≡ (has set.now k || (M.Map.meaning m.now).pair x k) }
{
    set.union(&m.listeners(x))
}

// The units that a unit of the set is paired to.
#[tactic(auto, using(crate::proofs::Listening::more_listeners, crate::proofs::Listening::all_listeners))]
fn listeners_of<M: Map>(m: &M, set: &UnitSet) -> UnitSet
    ensures { Listeners (M.Map.meaning m.now) (has set.now) (has result) }
{
    let mut all = UnitSet::empty();
    for x in set.iter() {
        all = with_listeners(m, &all, x);
    }
    all
}

// The units that a unit of the level is paired to, and that were not seen; now they are.
fn next_level<M: Map, K: Marks>(m: &M, level: &UnitSet, seen: &mut K) -> UnitSet
    ensures next { Next (M.Map.meaning m.now) (has level.now) (K.Marks.marked seen.old) (has result) }
    ensures seen { (k : ℕ) → K.Marks.marked seen.new k ≡ (K.Marks.marked seen.old k || has result k) }
    ensures below { K.Marks.below seen.new ≡ K.Marks.below seen.old }
{
    m.sound();
    let next = seen.unmarked(&listeners_of(m, level));
    seen.mark(&next);
    next
}
