// The two names of a line that asks for a pairing or about one.
ghost use Rattle.std.specs.Prelude.{◌≡◌, ◌≤◌, length};
ghost use Rattle.names.specs.Cards.{names_of};
ghost use Rattle.plain_named.specs.Calls.{both_found};

use names::{Cards, NameFault};

#[derive(Clone, Copy)]
pub struct TwoNames<'a> {
    pub source: &'a [u8],
    pub listener: &'a [u8],
    // the place of the second name can be told in a byte
    ghost short: { length source.now ≤ 16 },
}

impl TwoNames<'_> {
    // The units of the names, the first of which begins at place 3 of its line.
    pub fn units(self, cards: &Cards) -> Result<(u8, u8), NameFault>
        ensures { result ≡ both_found (names_of cards.now) self.entry.source.now self.entry.listener.now }
    {
        let a = cards.number_of(self.source, 3)?;
        let b = cards.number_of(self.listener, 4 + self.source.len() as u8)?;
        Ok((a, b))
    }
}
