// Any list of calls, put to a book over any store, granted or refused; and what is promised of the book and the answers.
#![tactic(auto)]

ghost use Rattle.std.specs.Option.{option_copied};
ghost use Rattle.std.specs.Prelude.{[], ◌∷◌, ◌++◌, map, IfOk, OnOk};
ghost use Rattle.plain.specs.Requests.{Make, Load};
ghost use Rattle.book.specs.Views.{plain_of, Whole};
ghost use Rattle.histories.specs.Promises.{Promised};
ghost use Rattle.history.specs.Calls.{request_of, reply_of, opening};
ghost use Rattle.history.specs.Played.{Played};
ghost use Rattle.history.specs.Begun.{Begun};

use book::Book;
use maps::{Map, Store};
use std::alloc::{AllocError, Global};

mod calls;
mod turns;

pub use calls::{Answer, Call, Partners, Told};
pub use labels::List;
use turns::load;
pub use turns::turn;

// A book that calls were put to, and their answers: the making first, then the load of a page where it began with one.
#[derive(Drop)]
pub struct Replayed<S: Store> {
    pub book: Book<S>,
    pub answers: Vec<Answer>,
}

impl<S: Store> Replayed<S> {
    // Puts the calls to the book one after the other, and adds their answers.
    fn play(&mut self, heap: Global, calls: &[Call]) -> Result<(), AllocError>
        requires { Whole S.Map.meaning self.old.book }
        ensures played { OnOk result (Played S.Store.room (map request_of calls.now) (plain_of S.Map.meaning self.old.book) (plain_of S.Map.meaning self.new.book) self.old.answers.items self.new.answers.items) }
        ensures whole { Whole S.Map.meaning self.new.book }
    {
        for call in calls {
            let answer = turn(heap, &mut self.book, call)?;
            self.answers.push(answer)?;
        }
        Ok(())
    }
}

// Makes an empty book over the store.
fn made_empty<S: Store + Drop>(heap: Global, store: S) -> Result<Replayed<S>, AllocError>
    ensures { IfOk result (λ x. Begun S.Map.meaning S.Store.room (Make ∷ []) x) }
{
    let book = Book::make(store);
    let mut answers = Vec::new(heap);
    answers.push(Ok(Told::Done))?;
    Ok(Replayed { book, answers })
}

// Loads the page into a book that was just made.
fn loaded<S: Store + Drop>(mut empty: Replayed<S>, page: &[u8]) -> Result<Replayed<S>, AllocError>
    requires { Begun S.Map.meaning S.Store.room (Make ∷ []) empty }
    ensures { IfOk result (λ x. Begun S.Map.meaning S.Store.room (Make ∷ Load page.now ∷ []) x) }
{
    let answer = load(&mut empty.book, page);
    empty.answers.push(answer)?;
    Ok(empty)
}

// Makes a book over the store, empty or from a page.
fn begin<S: Store + Drop>(
    heap: Global,
    store: S,
    page: Option<&[u8]>,
) -> Result<Replayed<S>, AllocError>
    ensures { IfOk result (λ x. Begun S.Map.meaning S.Store.room (opening (option_copied page.entry)) x) }
{
    let empty = made_empty(heap, store)?;
    match page {
        None => Ok(empty),
        Some(page) => loaded(empty, page),
    }
}

// Makes a book over the store, empty or from a page, and puts the calls to it one after the other, granted or refused.
pub fn replay<S: Store + Drop>(
    heap: Global,
    store: S,
    page: Option<&[u8]>,
    calls: &[Call],
) -> Result<Replayed<S>, AllocError>
    ensures { IfOk result (λ x. Promised S.Map.meaning S.Store.room (opening (option_copied page.entry) ++ map request_of calls.now) x.book (map reply_of x.answers.items)) }
{
    let mut replayed = begin(heap, store, page)?;
    replayed.play(heap, calls)?;
    Ok(replayed)
}
