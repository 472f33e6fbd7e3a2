// The bytes of a page, checked and read: the units in rank order, and for each the set of its listeners. Records are told by
// their numbers, as the format counts them, and a chain goes on by the number that each record has; all in fixed memory.
ghost use Rattle.std.specs.Prelude.{◌≡◌, ℕ, ◌+◌, ◌<◌, ◌≤◌, false, get_or, if◌then◌else◌, MatchOption, nat_eq, nat_le, slice_index_or};
ghost use Rattle.units.specs.Has.{has, in_row};
ghost use Rattle.theory.specs.Maps.{listed};
ghost use Rattle.plain.specs.Lists.{every, numbers, each};
ghost use Rattle.plain.specs.Pages.{unit_count, record_count, listener_in, unit_chain, page_book};
ghost use Rattle.page.specs.Indices.{index_of};
ghost use Rattle.page_laws.specs.Fresh.{fresh_record};
ghost use Rattle.page_laws.specs.Parts.{Parts, Followed};

use crate::formed::Formed;
use crate::ranked::Ranked;
use ranks::Ranks;
use units::{UnitSet, empty_rows};

// The page with its units in rank order; none where one is 0 or stands twice.
pub(crate) fn read_units(page: Formed<'_>) -> Option<Ranked<'_>>
    ensures { MatchOption result (Parts page.entry → ⊥) (λ t. t.page ≡ page.entry) }
{
    let mut ranks = Ranks::empty();
    for i in 0..page.units() {
        ranks.push(page.unit(i))?;
    }
    Some(Ranked { page, ranks })
}

// Whether an index that was read stands for one of so many records, or for none.
fn is_record(index: Option<usize>, records: usize) -> bool
    ensures { result ≡ nat_le (index_of index) records }
{
    index.is_none_or(|r| r <= records)
}

// Whether the record may come next in a chain whose listeners so far are `row`.
fn may_follow(ranked: &Ranked<'_>, seen: &[bool; 8001], row: &UnitSet, r: usize) -> bool
    requires low { 1 ≤ r }
    requires high { r ≤ record_count ranked.now.page }
    ensures { result ≡ fresh_record ranked.now.page ranked.now.ranks seen.now (has row.now) r }
{
    let page = &ranked.page;
    let records = page.records();
    let listener = page.listener(r);
    !seen[r]
        && is_record(page.next(r), records)
        && ranked.ranks.holds(listener)
        && !row.contains(listener)
}

// Follows the chain of the unit record i, marks its records as seen, and gathers its listeners.
fn follow(ranked: &Ranked<'_>, i: usize, seen: &mut [bool; 8001]) -> Option<UnitSet>
    requires within { i < unit_count ranked.now.page }
    requires before { Followed ranked.now.page i seen.old }
    ensures { MatchOption result (Parts ranked.now.page → ⊥) (λ row. Followed ranked.now.page (i + 1) seen.new × ((k : ℕ) → has row k ≡ listed k (each (listener_in ranked.now.page) (unit_chain ranked.now.page i)))) }
{
    let page = &ranked.page;
    let mut row = UnitSet::empty();
    let mut next = page.first(i);
    if !is_record(next, page.records()) {
        return None;
    }
    while let Some(r) = next {
        if !may_follow(ranked, seen, &row, r) {
            return None;
        }
        seen[r] = true;
        row.insert(page.listener(r));
        next = page.next(r);
    }
    Some(row)
}

// Whether every record has been seen.
fn all_seen(page: &Formed<'_>, seen: &[bool; 8001]) -> bool
    ensures { result ≡ every (λ k. get_or seen.now k false) (numbers 1 (record_count page.now)) }
{
    seen[1..=page.records()].iter().all(|met| *met)
}

// Makes the set of u another one.
fn write_row(rows: &mut [UnitSet; 256], u: u8, row: UnitSet)
    ensures { (a b : ℕ) → in_row rows.new a b ≡ (if nat_eq a u then has row b else in_row rows.old a b) }
{
    rows[usize::from(u)] = row;
}

// No record has been seen.
fn none_seen() -> [bool; 8001]
    ensures { (k : ℕ) → slice_index_or result k false ≡ false }
{
    [false; 8001]
}

// The listeners of each unit, by the chains of the page; none where the page breaks a rule.
pub(crate) fn read_rows(ranked: &Ranked<'_>) -> Option<[UnitSet; 256]>
    ensures { MatchOption result (Parts ranked.now.page → ⊥) (λ rows. Parts ranked.now.page × ((a b : ℕ) → in_row rows a b ≡ (page_book ranked.now.page).pair a b)) }
{
    ranked.ranks.lawful();
    let page = &ranked.page;
    let mut seen = none_seen();
    let mut rows = empty_rows();
    for i in 0..page.units() {
        let row = follow(ranked, i, &mut seen)?;
        write_row(&mut rows, page.unit(i), row);
    }
    all_seen(page, &seen).then_some(rows)
}
