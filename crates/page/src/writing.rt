// The bytes of a page, written record by record. Each writer is told the place of its first record and that record's number, and
// writes by places: of a page that is lent out in pieces a proof would know no more than its length. A record tells whether
// another follows, so the next listener is looked for before one is written.
ghost use Rattle.std.specs.Prelude.{◌≡◌, ◌+◌, ◌*◌, ◌<◌, ◌≤◌, ◌++◌, length, take, if◌then◌else◌, nat_eq};
ghost use Rattle.units.specs.Has.{has};
ghost use Rattle.theory.specs.Lists.{sum};
ghost use Rattle.theory.specs.Counts.{pair_count};
ghost use Rattle.theory.specs.Ranks.{Orders};
ghost use Rattle.plain.specs.Plain.{plain_by};
ghost use Rattle.plain.specs.Saving.{ascending, record_bytes, head_bytes, unit_bytes, chain_bytes, pairing_bytes, saved_page};
ghost use Rattle.page_laws.specs.Ahead.{following_index};

use maps::Map;
use units::UnitSet;

// Writes a record of three bytes from a place on.
fn write_record(page: &mut [u8], at: usize, number: u8, index: u16)
    requires { at + 3 ≤ length page.old }
    ensures { take (at + 3) page.new ≡ take at page.old ++ record_bytes number index }
{
    let [low, high] = index.to_le_bytes();
    page[at] = number;
    page[at + 1] = low;
    page[at + 2] = high;
}

// The index of the record that comes next; the format has 0 where none is left.
fn index_of(at: u16, left: u16) -> u16
    ensures { result ≡ (if nat_eq left 0 then 0 else at) }
{
    if left == 0 { 0 } else { at }
}

// Writes the records of the units in their order, where the first pairing record has the number 1.
pub(crate) fn write_units<M: Map>(page: &mut [u8], order: &[u8], map: &M)
    requires room { 4 + 3 * length order.now ≤ length page.old }
    requires few { sum order.now (λ u. length (ascending ((M.Map.meaning map.now).pair u))) ≤ 8000 }
    ensures { take (4 + 3 * length order.now) page.new ≡ take 4 page.old ++ unit_bytes (M.Map.meaning map.now).pair 1 order.now }
{
    map.sound();
    let mut at = 1;
    for (i, u) in order.iter().enumerate() {
        let count = map.listeners(*u).len();
        write_record(page, 4 + 3 * i, *u, index_of(at, count));
        at += count;
    }
}

// Writes the records of one chain from a place on, numbered from `at`.
fn write_chain(page: &mut [u8], from: usize, at: u16, listeners: &UnitSet)
    requires room { from + 3 * length (ascending (has listeners.now)) ≤ length page.old }
    requires few { at + length (ascending (has listeners.now)) ≤ 8001 }
    ensures { take (from + 3 * length (ascending (has listeners.now))) page.new ≡ take from page.old ++ chain_bytes at (ascending (has listeners.now)) }
{
    let mut to = from;
    let mut number = at;
    let mut next = listeners.least_above(0);
    while let Some(listener) = next {
        next = listeners.least_above(listener);
        write_record(page, to, listener, following(number, next));
        to += 3;
        number += 1;
    }
}

// The number of the record after this one; the format has 0 where it is the last.
fn following(number: u16, next: Option<u8>) -> u16
    requires { number < 65535 }
    ensures { result ≡ following_index number next }
{
    match next {
        Some(_) => number + 1,
        None => 0,
    }
}

// Writes the pairing records of the units in their order, from a place on.
pub(crate) fn write_pairings<M: Map>(page: &mut [u8], from: usize, order: &[u8], map: &M)
    requires room { from + 3 * sum order.now (λ u. length (ascending ((M.Map.meaning map.now).pair u))) ≤ length page.old }
    requires few { sum order.now (λ u. length (ascending ((M.Map.meaning map.now).pair u))) ≤ 8000 }
    ensures { take (from + 3 * sum order.now (λ u. length (ascending ((M.Map.meaning map.now).pair u)))) page.new ≡ take from page.old ++ pairing_bytes (M.Map.meaning map.now).pair 1 order.now }
{
    map.sound();
    let mut to = from;
    let mut at = 1;
    for u in order {
        let listeners = map.listeners(*u);
        write_chain(page, to, at, &listeners);
        to += 3 * (listeners.len() as usize);
        at += listeners.len();
    }
}

// Writes the four bytes at the start: the form, the number of units and the number of pairings.
fn write_head(page: &mut [u8], units: u8, pairings: u16)
    requires { 4 ≤ length page.old }
    ensures { take 4 page.new ≡ head_bytes units pairings }
{
    page[0] = 1;
    write_record(page, 1, units, pairings);
}

// Fills a page of just the right length with the units in their order and the pairings of the map.
pub fn write<M: Map>(page: &mut [u8], order: &[u8], map: &M, pairings: u16)
    requires orders { Orders (M.Map.meaning map.now) order.now }
    requires number { pairings ≡ pair_count (M.Map.meaning map.now) }
    requires few { pairings ≤ 8000 }
    requires long { length page.old ≡ 4 + 3 * length order.now + 3 * pairings }
    ensures { page.new ≡ saved_page (plain_by (M.Map.meaning map.now) order.now) }
{
    map.sound();
    write_head(page, order.len() as u8, pairings);
    write_units(page, order, map);
    write_pairings(page, 4 + 3 * order.len(), order, map);
}
