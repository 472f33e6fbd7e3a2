// A page that begins as one does and has the length that it says, and what its records say.
ghost use Rattle.std.specs.Prelude.{◌≡◌, ℕ, List, ◌+◌, ◌<◌, ◌≤◌, true, false, length, MatchOption};
ghost use Rattle.plain.specs.Pages.{word, has_form, unit_count, record_count, unit_in, first_of, listener_in, next_of};
ghost use Rattle.page.specs.Indices.{IsIndex};

use std::marker::Model;

#[derive(Drop)]
pub(crate) struct Formed<'a> {
    page: &'a [u8],
}

// A clause sees the bytes.
impl<'a> Model for Formed<'a> {
    ghost Value = { List ℕ };

    ghost view = { λ p. p.page.now };

    ghost invariant = { λ p. has_form p.page.now ≡ true };
}

// A number of two bytes, the low one first.
fn word_at(page: &[u8], at: usize) -> usize
    requires { at + 1 < length page.now }
    ensures { result ≡ word page.now at }
{
    usize::from(u16::from_le_bytes([page[at], page[at + 1]]))
}

// Whether the page begins as one does and has the length that it says.
fn is_formed(page: &[u8]) -> bool
    ensures { result ≡ has_form page.now }
{
    let [form, units, low, high, ..] = page else {
        return false;
    };
    let records = usize::from(u16::from_le_bytes([*low, *high]));
    page.len() == 4 + 3 * usize::from(*units) + 3 * records && *form == 1 && records <= 8000
}

// The record of an index; the format has 0 for none.
fn record_of(index: usize) -> Option<usize>
    ensures { IsIndex index result }
{
    if index == 0 { None } else { Some(index) }
}

impl<'a> Formed<'a> {
    // By a branch: a page is one that is formed only where that is known.
    pub(crate) fn of(page: &'a [u8]) -> Option<Formed<'a>>
        ensures { MatchOption result (has_form page.now ≡ false) (λ f. f ≡ page.now) }
    {
        if is_formed(page) {
            Some(Formed { page })
        } else {
            None
        }
    }

    // How many unit records there are.
    pub(crate) fn units(&self) -> usize
        ensures form { has_form self.now ≡ true }
        ensures is { result ≡ unit_count self.now }
    {
        usize::from(self.page[1])
    }

    // How many pairing records there are.
    pub(crate) fn records(&self) -> usize
        ensures most { result ≤ 8000 }
        ensures is { result ≡ record_count self.now }
    {
        word_at(self.page, 2)
    }

    // The unit of a unit record, counted from 0.
    pub(crate) fn unit(&self, i: usize) -> u8
        requires { i < unit_count self.now }
        ensures { result ≡ unit_in self.now i }
    {
        let page = self.page;
        page[4 + 3 * i]
    }

    // The first pairing record of a unit record.
    pub(crate) fn first(&self, i: usize) -> Option<usize>
        requires { i < unit_count self.now }
        ensures { IsIndex (first_of self.now i) result }
    {
        let page = self.page;
        record_of(word_at(page, 4 + 3 * i + 1))
    }

    // The listener of a pairing record, counted from 1 as the format does; a type for such numbers would be asked as much.
    pub(crate) fn listener(&self, r: usize) -> u8
        requires low { 1 ≤ r }
        requires high { r ≤ record_count self.now }
        ensures { result ≡ listener_in self.now r }
    {
        let page = self.page;
        page[4 + 3 * usize::from(page[1]) + 3 * (r - 1)]
    }

    // The record after it in its chain.
    pub(crate) fn next(&self, r: usize) -> Option<usize>
        requires low { 1 ≤ r }
        requires high { r ≤ record_count self.now }
        ensures { IsIndex (next_of self.now r) result }
    {
        let page = self.page;
        record_of(word_at(page, 4 + 3 * usize::from(page[1]) + 3 * (r - 1) + 1))
    }
}
