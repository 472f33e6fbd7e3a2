// Reach past units that are off, over any map. The off units are told by a sheet of bytes that the caller lends; the search
// writes its marks on that sheet, and a guard over it takes them off again, whatever way the search ends.
#![tactic(auto)]

ghost use Rattle.std.specs.Prelude.{◌≡◌, ℕ, ◌≤◌, not, ◌&&◌, ◌||◌, length, IfSome, ◌==◌, nat_lt};
ghost use Rattle.units.specs.Has.{has};
ghost use Rattle.theory.specs.Maps.{hidden};
ghost use Rattle.theory.specs.Chains.{FewestOrNone};
ghost use Rattle.plain.specs.Lists.{some};
ghost use Rattle.plain.specs.Reaching.{off};
ghost use Rattle.sheets.specs.Sheets.{wiped, marked, Clean};

use layers::Hiding;
use maps::Map;
use units::UnitSet;
use walks::{Marks, fewest_pairings_marking};

// Takes the marks off: each byte is its off mark again.
fn wipe(sheet: &mut [u8])
    ensures { sheet.new ≡ wiped sheet.old }
{
    for x in sheet.iter_mut() {
        *x = *x % 2;
    }
}

// The marks of a search on a lent sheet.
struct SheetMarks<'a> {
    sheet: &'a mut [u8],
    ghost wide: { length sheet.now ≡ 255 },
}

impl Drop for SheetMarks<'_> {
    fn drop(self)
        ensures { self.exit.0.now ≡ wiped self.entry.sheet.now }
    {
        let SheetMarks { sheet } = self;
        wipe(sheet);
    }
}

// Whether the byte of the unit u is marked.
fn is_marked(sheet: &[u8], u: u8) -> bool
    requires { length sheet.now ≡ 255 }
    ensures { result ≡ marked sheet.now u }
{
    u >= 1 && sheet[u as usize - 1] >= 2
}

// The units of the set that are not marked on the sheet.
fn unmarked_of(sheet: &[u8], set: &UnitSet) -> UnitSet
    requires { length sheet.now ≡ 255 }
    ensures { (k : ℕ) → has result k ≡ (has set.now k && not (marked sheet.now k)) }
{
    let mut rest = *set;
    for u in set.iter() {
        if is_marked(sheet, u) {
            rest.remove(u);
        }
    }
    rest
}

impl Marks for SheetMarks<'_> {
    ghost marked = { λ g. marked g.sheet.now };

    ghost below = { λ g. (g.sheet.ghost_name, wiped g.sheet.now) };

    fn mark(&mut self, set: &UnitSet) {
        for u in set.iter() {
            let place = u as usize - 1;
            self.sheet[place] = self.sheet[place] % 2 + 2;
        }
    }

    fn unmarked(&self, set: &UnitSet) -> UnitSet {
        unmarked_of(self.sheet, set)
    }
}

// The units that are off.
fn off_units(sheet: &[u8]) -> UnitSet
    requires { length sheet.now ≡ 255 }
    ensures { (u : ℕ) → has result u ≡ off sheet.now u }
{
    let mut all = UnitSet::empty();
    for (i, byte) in sheet.iter().enumerate() {
        if *byte == 1 {
            all.insert(i as u8 + 1);
        }
    }
    all
}

// Whether the sheet has a byte for each unit, and none that is more than 1.
pub fn is_lawful(sheet: &[u8]) -> bool
    ensures { not result ≡ (not (length sheet.now == 255) || some (λ b. nat_lt 1 b) sheet.now) }
{
    sheet.len() == 255 && low_bytes(sheet)
}

// Whether no byte is more than 1.
fn low_bytes(sheet: &[u8]) -> bool
    ensures { not result ≡ some (λ b. nat_lt 1 b) sheet.now }
{
    !sheet.iter().any(|b| *b > 1)
}

// The fewest pairings of a chain from s to t that has no unit which is off, both ends included; none where there is no such
// chain. The sheet is left as it was.
pub fn reach<M: Map>(m: &M, s: u8, t: u8, sheet: &mut [u8]) -> Option<u16>
    requires wide { length sheet.old ≡ 255 }
    requires clean { Clean sheet.old }
    ensures fewest { FewestOrNone (hidden (off sheet.old) (M.Map.meaning m.now)) s t result }
    ensures few { IfSome result (λ n. n ≤ 255) }
    ensures same { sheet.new ≡ sheet.old }
{
    let open = Hiding::without(m, off_units(sheet));
    let mut marks = SheetMarks { sheet };
    fewest_pairings_marking(&open, s, t, &mut marks)
}
