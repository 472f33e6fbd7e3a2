// One call, put to a book.
ghost use Rattle.std.specs.Prelude.{◌≡◌, ◌+◌, ◌≤◌, length, IfOk};
ghost use Rattle.plain.specs.Requests.{Load, Enrol, Drop, Pair, Unpair, Rank, Hear, BestPlace, Reach, Save};
ghost use Rattle.book.specs.Views.{plain_of, Whole};
ghost use Rattle.book.specs.Answers.{list_request};
ghost use Rattle.history.specs.Calls.{request_of, reply_of, part_written, Turned};

use crate::calls::{Answer, Call, Told};
use book::Book;
use labels::List;
use maps::{Map, Store};
use plain::BookFault;
use std::alloc::{AllocError, Global};

// What was written from a place of the buffer on, or the cause of a refusal. A match, since the copy may want memory.
fn written(
    heap: Global,
    told: Result<usize, BookFault>,
    place: usize,
    buffer: &[u8],
) -> Result<Answer, AllocError>
    requires { IfOk told (λ n. place + n ≤ length buffer.now) }
    ensures { IfOk result (λ a. reply_of a ≡ part_written told place buffer.now) }
{
    match told {
        Ok(n) => Ok(Ok(Told::Written(buffer[place..place + n].to_vec(heap)?))),
        Err(cause) => Ok(Err(cause)),
    }
}

// One of the four lists of a unit, by a buffer of so many bytes.
fn list<S: Store>(
    heap: Global,
    book: &Book<S>,
    list: List,
    unit: u8,
    room: usize,
) -> Result<Answer, AllocError>
    requires { Whole S.Map.meaning book.now }
    ensures { IfOk result (λ a. Turned S.Store.room (list_request list unit room) (plain_of S.Map.meaning book.now) (plain_of S.Map.meaning book.now) a) }
{
    let mut lent = vec![in heap; 0u8; room]?;
    let buffer = lent.as_mut_slice();
    let told = book.list(list, unit, buffer);
    written(heap, told, 0, buffer)
}

// The page of the book, from a place of a buffer of so many bytes on.
fn save<S: Store>(
    heap: Global,
    book: &Book<S>,
    place: usize,
    room: usize,
) -> Result<Answer, AllocError>
    requires { Whole S.Map.meaning book.now }
    ensures { IfOk result (λ a. Turned S.Store.room (Save place room) (plain_of S.Map.meaning book.now) (plain_of S.Map.meaning book.now) a) }
{
    let mut lent = vec![in heap; 0u8; room]?;
    let buffer = lent.as_mut_slice();
    let told = book.save(place, buffer);
    written(heap, told, place, buffer)
}

// The fewest pairings past the units that are off, by a copy of the off sheet.
fn reach<S: Store>(
    heap: Global,
    book: &Book<S>,
    s: u8,
    t: u8,
    sheet: &[u8],
) -> Result<Answer, AllocError>
    requires { Whole S.Map.meaning book.now }
    ensures { IfOk result (λ a. Turned S.Store.room (Reach s t sheet.now) (plain_of S.Map.meaning book.now) (plain_of S.Map.meaning book.now) a) }
{
    let mut copy = sheet.to_vec(heap)?;
    Ok(book.reach(s, t, copy.as_mut_slice()).map(Told::Reached))
}

// Loads the page into the book, or tells why not.
pub(crate) fn load<S: Store>(book: &mut Book<S>, page: &[u8]) -> Answer
    requires { Whole S.Map.meaning book.old }
    ensures turned { Turned S.Store.room (Load page.now) (plain_of S.Map.meaning book.old) (plain_of S.Map.meaning book.new) result }
    ensures whole { Whole S.Map.meaning book.new }
{
    book.load(page).map(|()| Told::Done)
}

// Puts one call to the book, granted or refused.
pub fn turn<S: Store>(heap: Global, book: &mut Book<S>, call: &Call) -> Result<Answer, AllocError>
    requires { Whole S.Map.meaning book.old }
    ensures turned { IfOk result (λ a. Turned S.Store.room (request_of call.now) (plain_of S.Map.meaning book.old) (plain_of S.Map.meaning book.new) a) }
    ensures whole { Whole S.Map.meaning book.new }
{
    match call {
        Call::Load(page) => Ok(load(book, page.as_slice())),
        Call::Enrol { unit, rank, with } => Ok(
            book.enrol(
                *unit,
                *rank,
                with.sources.as_slice(),
                with.listeners.as_slice(),
            )
            .map(Told::Changed),
        ),
        Call::Drop(unit) => Ok(book.drop_unit(*unit).map(Told::Changed)),
        Call::Pair(a, b) => Ok(book.pair(*a, *b).map(Told::Changed)),
        Call::Unpair(a, b) => Ok(book.unpair(*a, *b).map(Told::Changed)),
        Call::Rank(unit, to) => Ok(book.rank(*unit, *to).map(Told::Changed)),
        Call::Hear(s, t) => Ok(book.hear(*s, *t).map(Told::Heard)),
        Call::BestPlace { unit, with } => Ok(
            book.best_place(*unit, with.sources.as_slice(), with.listeners.as_slice())
                .map(Told::Placed),
        ),
        Call::List {
            list: wanted,
            unit,
            room,
        } => list(heap, book, *wanted, *unit, *room),
        Call::Reach {
            source,
            listener,
            sheet,
        } => reach(heap, book, *source, *listener, sheet.as_slice()),
        Call::Save { place, room } => save(heap, book, *place, *room),
    }
}
