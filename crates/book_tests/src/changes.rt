// What is put to a book under test.
ghost use Rattle.book.specs.Views.{Whole};

use book::Book;
pub use labels::List;
use maps::Store;
use plain::BookFault;

#[derive(Clone, Copy)]
pub enum Change<'a> {
    Enrol {
        unit: u8,
        rank: u8,
        sources: &'a [u8],
        listeners: &'a [u8],
    },
    Drop(u8),
    Pair(u8, u8),
    Unpair(u8, u8),
    Rank(u8, u8),
}

pub fn enrol<'a>(unit: u8, rank: u8, sources: &'a [u8], listeners: &'a [u8]) -> Change<'a> {
    Change::Enrol {
        unit,
        rank,
        sources,
        listeners,
    }
}

// Puts the change to the book.
pub fn put<S: Store>(book: &mut Book<S>, change: &Change<'_>) -> Result<u32, BookFault>
    requires { Whole S.Map.meaning book.old }
    ensures { Whole S.Map.meaning book.new }
{
    match *change {
        Change::Enrol {
            unit,
            rank,
            sources,
            listeners,
        } => book.enrol(unit, rank, sources, listeners),
        Change::Drop(v) => book.drop_unit(v),
        Change::Pair(a, b) => book.pair(a, b),
        Change::Unpair(a, b) => book.unpair(a, b),
        Change::Rank(v, k) => book.rank(v, k),
    }
}
