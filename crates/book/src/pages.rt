// A book from a page, and a page from a book.
ghost use Rattle.std.specs.Prelude.{◌≡◌, ◌+◌, ◌*◌, Err, nat_le};
ghost use Rattle.plain.specs.Requests.{Load, verdict, step};
ghost use Rattle.book.specs.Views.{plain_of, Whole};
ghost use Rattle.book.specs.Answers.{answered, Saves};

use crate::Book;
use maps::{Store, copy_map};
use mending::build;
use page::{read, write};
use plain::BookFault;

impl<S: Store> Book<S> {
    // Replaces the whole book by what the page says, with labels built anew.
    pub fn load(&mut self, page: &[u8]) -> Result<(), BookFault>
        requires { Whole S.Map.meaning self.old }
        ensures told { result ≡ answered (verdict S.Store.room (plain_of S.Map.meaning self.old) (Load page.now)) tt }
        ensures left { plain_of S.Map.meaning self.new ≡ step S.Store.room (plain_of S.Map.meaning self.old) (Load page.now) }
        ensures whole { Whole S.Map.meaning self.new }
        ensures kept { (cause : BookFault) → result ≡ Err cause → self.new ≡ self.old }
    {
        let contents = read(page)?;
        contents.ranks.lawful();
        copy_map(&contents.map, &mut self.store)?;
        self.labels = build(&contents.map, contents.ranks.as_slice());
        self.ranks = contents.ranks;
        Ok(())
    }

    // Writes the page of the book from a place of the buffer on, and tells its length; bytes outside the page stay.
    pub fn save(&self, place: usize, buffer: &mut [u8]) -> Result<usize, BookFault>
        requires { Whole S.Map.meaning self.now }
        ensures { Saves S.Store.room (plain_of S.Map.meaning self.now) place buffer.old result buffer.new }
    {
        let pairings = self.store.pairings();
        let _ = self.store.capacity();
        let length = page_length(self.ranks.len(), pairings);
        if !fits(place, length, buffer.len()) {
            return Err(BookFault::ShortBuffer);
        }
        write(
            &mut buffer[place..place + length],
            self.ranks.as_slice(),
            &self.store,
            pairings,
        );
        Ok(length)
    }
}

// How many bytes a page of so many units and pairings has.
fn page_length(units: u8, pairings: u16) -> usize
    ensures { result ≡ 4 + 3 * units + 3 * pairings }
{
    4 + 3 * (units as usize) + 3 * (pairings as usize)
}

// Whether so many bytes from a place on lie within the room.
fn fits(place: usize, length: usize, room: usize) -> bool
    ensures { result ≡ nat_le (place + length) room }
{
    place <= room && length <= room - place
}
