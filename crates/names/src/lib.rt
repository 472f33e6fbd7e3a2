// Name cards: one for each number from 0 to 255, with the name of the unit on it while the unit stands. A change writes one
// card anew and leaves the others.
#![tactic(auto)]

ghost use Rattle.std.specs.Prelude.{◌≡◌, ℕ, ◌≤◌, length, take, Some, None, MatchOption, ◌≢◌, slice_index_or};
ghost use Rattle.names.specs.Names.{nameless, renamed, is_name, unit_named, found_at, free_at};
ghost use Rattle.names.specs.Cards.{names_of};

mod fault;
mod name;

pub use fault::NameFault;
use name::Name;

// The cards of all numbers. A blank one has no name.
#[derive(Clone, Copy)]
pub struct Cards {
    cards: [Option<Name>; 256],
}

fn blank_cards() -> [Option<Name>; 256]
    ensures { (u : ℕ) → slice_index_or result u None ≡ None }
{
    [None; 256]
}

impl Cards {
    // Cards with no name on them.
    pub fn blank() -> Cards
        ensures { names_of result ≡ nameless }
    {
        Cards {
            cards: blank_cards(),
        }
    }

    // Writes the name on the card of u.
    pub fn write(&mut self, u: u8, name: &[u8])
        requires { length name.now ≤ 16 }
        ensures { names_of self.new ≡ renamed u (Some name.now) (names_of self.old) }
    {
        self.cards[usize::from(u)] = Some(Name::of(name));
    }

    // Makes the card of u blank.
    pub fn wipe(&mut self, u: u8)
        ensures { names_of self.new ≡ renamed u None (names_of self.old) }
    {
        self.cards[usize::from(u)] = None;
    }

    // Whether this is the name on the card of u.
    fn has_at(&self, u: u8, name: &Name) -> bool
        ensures { result ≡ is_name (names_of self.now u) (take name.now.len name.now.bytes) }
    {
        let card = &self.cards[usize::from(u)];
        card.as_ref().is_some_and(|own| own.is(name))
    }

    // The number whose card has the name, if there is one. A card holds at most 16 bytes.
    #[tactic(auto, using(crate::proofs::Blocks::nobody_long))]
    pub fn find(&self, name: &[u8]) -> Option<u8>
        ensures is { result ≡ unit_named (names_of self.now) name.now }
        ensures holder { MatchOption result ((u : ℕ) → names_of self.now u ≢ Some name.now) (λ u. names_of self.now u ≡ Some name.now) }
    {
        if name.len() > 16 {
            return None;
        }
        let sought = Name::of(name);
        // Not `0..=255u8`, which at each step also tests whether it has ended.
        (0..256u16)
            .find(|u| self.has_at(*u as u8, &sought))
            .map(|u| u as u8)
    }

    // The number with the name that begins at a place of a line.
    pub fn number_of(&self, name: &[u8], place: u8) -> Result<u8, NameFault>
        ensures { result ≡ found_at place (unit_named (names_of self.now) name.now) }
    {
        self.find(name).ok_or(NameFault::Unknown(place))
    }

    // That no number has the name that begins at a place of a line. A match, since here it is `Some` that is refused.
    pub fn check_free(&self, name: &[u8], place: u8) -> Result<(), NameFault>
        ensures { result ≡ free_at place (unit_named (names_of self.now) name.now) }
    {
        match self.find(name) {
            Some(_) => Err(NameFault::Taken(place)),
            None => Ok(()),
        }
    }
}
