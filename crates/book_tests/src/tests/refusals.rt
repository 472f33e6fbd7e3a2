// Every refusal, and which of two causes is told.
ghost use Rattle.book.specs.Views.{Whole};

use super::{Step, Told, labels, play, tells};
use crate::changes::{Change, List, enrol};
use book::Book;
use grid::Grid;
use maps::Store;
use plain::BookFault;
use std::process::Abort;
use std::test::Fail;

// Units 1 to 4 in this order, 1 paired to 2 and 2 to 3.
fn small_book<S: Store>(rt: &impl Abort, book: &mut Book<S>) -> Result<(), Fail>
    requires { Whole S.Map.meaning book.old }
    ensures { Whole S.Map.meaning book.new }
{
    let steps = [
        Step(enrol(1, 1, &[], &[]), Ok(0)),
        Step(enrol(2, 2, &[1], &[]), Ok(1)),
        Step(enrol(3, 3, &[2], &[]), Ok(2)),
        Step(enrol(4, 4, &[], &[]), Ok(0)),
    ];
    play(rt, book, &steps)
}

// The book is still the small one.
fn is_small<S: Store>(rt: &impl Abort, book: &Book<S>) -> Result<(), Fail>
    requires { Whole S.Map.meaning book.now }
{
    assert_eq!(rt; labels(book), 3);
    let lists = [
        Told(List::InLabels, 2, &[1]),
        Told(List::InLabels, 3, &[1, 2]),
        Told(List::InHolders, 4, &[]),
    ];
    tells(rt, book, &lists)
}

// Of the number and the rank of a unit that is enrolled, alone and before each later cause.
fn unit_refused<S: Store>(rt: &impl Abort, book: &mut Book<S>) -> Result<(), Fail>
    requires { Whole S.Map.meaning book.old }
    ensures { Whole S.Map.meaning book.new }
{
    let steps = [
        Step(enrol(0, 1, &[], &[]), Err(BookFault::Zero)),
        Step(enrol(0, 0, &[], &[]), Err(BookFault::Zero)),
        Step(enrol(0, 1, &[9], &[]), Err(BookFault::Zero)),
        Step(enrol(0, 1, &[1, 1], &[]), Err(BookFault::Zero)),
        Step(enrol(0, 1, &[3], &[1]), Err(BookFault::Zero)),
        Step(enrol(1, 1, &[], &[]), Err(BookFault::Standing)),
        Step(enrol(1, 6, &[], &[]), Err(BookFault::Standing)),
        Step(enrol(1, 1, &[], &[9]), Err(BookFault::Standing)),
        Step(enrol(1, 1, &[], &[4, 4]), Err(BookFault::Standing)),
        Step(enrol(1, 1, &[3], &[2]), Err(BookFault::Standing)),
    ];
    play(rt, book, &steps)
}

fn rank_refused<S: Store>(rt: &impl Abort, book: &mut Book<S>) -> Result<(), Fail>
    requires { Whole S.Map.meaning book.old }
    ensures { Whole S.Map.meaning book.new }
{
    let steps = [
        Step(enrol(5, 0, &[], &[]), Err(BookFault::RankOutside)),
        Step(enrol(5, 6, &[], &[]), Err(BookFault::RankOutside)),
        Step(enrol(5, 255, &[5], &[]), Err(BookFault::RankOutside)),
        Step(enrol(5, 6, &[], &[1, 1]), Err(BookFault::RankOutside)),
        Step(enrol(5, 0, &[3], &[1]), Err(BookFault::RankOutside)),
        Step(Change::Rank(1, 0), Err(BookFault::RankOutside)),
        Step(Change::Rank(4, 5), Err(BookFault::RankOutside)),
        Step(Change::Rank(9, 1), Err(BookFault::Unknown)),
        Step(Change::Rank(9, 0), Err(BookFault::Unknown)),
        Step(Change::Rank(0, 5), Err(BookFault::Unknown)),
    ];
    play(rt, book, &steps)
}

// Of the partners, alone and before each later cause, in either list.
fn partners_refused<S: Store>(rt: &impl Abort, book: &mut Book<S>) -> Result<(), Fail>
    requires { Whole S.Map.meaning book.old }
    ensures { Whole S.Map.meaning book.new }
{
    let steps = [
        Step(enrol(5, 1, &[5], &[]), Err(BookFault::Unknown)),
        Step(enrol(5, 1, &[], &[0]), Err(BookFault::Unknown)),
        Step(enrol(5, 5, &[1, 1], &[9]), Err(BookFault::Unknown)),
        Step(enrol(5, 5, &[9, 9], &[]), Err(BookFault::Unknown)),
        Step(enrol(5, 1, &[3], &[1, 9]), Err(BookFault::Unknown)),
        Step(enrol(5, 1, &[1, 4, 1], &[]), Err(BookFault::Doubled)),
        Step(enrol(5, 1, &[], &[4, 4]), Err(BookFault::Doubled)),
        Step(enrol(5, 1, &[3], &[1, 1]), Err(BookFault::Doubled)),
    ];
    play(rt, book, &steps)
}

// A ring, by an enrolment or by a pairing, and what else is refused of a unit or a pairing.
fn pairings_refused<S: Store>(rt: &impl Abort, book: &mut Book<S>) -> Result<(), Fail>
    requires { Whole S.Map.meaning book.old }
    ensures { Whole S.Map.meaning book.new }
{
    let steps = [
        Step(Change::Drop(0), Err(BookFault::Unknown)),
        Step(Change::Drop(9), Err(BookFault::Unknown)),
        Step(Change::Pair(1, 9), Err(BookFault::Unknown)),
        Step(Change::Pair(9, 9), Err(BookFault::Unknown)),
        Step(enrol(5, 1, &[4, 3], &[4, 1]), Err(BookFault::Ring)),
        Step(enrol(5, 1, &[2], &[2]), Err(BookFault::Ring)),
        Step(enrol(5, 1, &[3], &[1]), Err(BookFault::Ring)),
        Step(Change::Pair(3, 1), Err(BookFault::Ring)),
        Step(Change::Pair(4, 4), Err(BookFault::Ring)),
        Step(Change::Pair(1, 2), Err(BookFault::AlreadyPaired)),
        Step(Change::Unpair(9, 1), Err(BookFault::Unknown)),
        Step(Change::Unpair(1, 0), Err(BookFault::Unknown)),
        Step(Change::Unpair(1, 3), Err(BookFault::NotPaired)),
        Step(Change::Unpair(2, 1), Err(BookFault::NotPaired)),
        Step(Change::Unpair(1, 1), Err(BookFault::NotPaired)),
    ];
    play(rt, book, &steps)
}

// A list that is asked for in so many bytes, and what the book must answer.
#[derive(Clone, Copy)]
struct Asked(List, u8, usize, Result<usize, BookFault>);

// A refusal leaves the buffer as it was; an answer leaves the byte after the list.
fn asks_list<S: Store>(rt: &impl Abort, book: &Book<S>, asked: &Asked) -> Result<(), Fail>
    requires { Whole S.Map.meaning book.now }
{
    let mut buffer = [77; 4];
    assert!(rt; asked.2 <= 4);
    let answer = book.list(asked.0, asked.1, &mut buffer[0..asked.2]);
    assert_eq!(rt; answer, asked.3);
    match answer {
        Ok(n) => {
            assert!(rt; n < 4);
            assert_eq!(rt; buffer[n], 77);
            Ok(())
        }
        Err(_) => {
            assert_eq!(rt; buffer, [77; 4]);
            Ok(())
        },
    }
}

fn asks<S: Store>(rt: &impl Abort, book: &Book<S>, table: &[Asked]) -> Result<(), Fail>
    requires { Whole S.Map.meaning book.now }
{
    for asked in table {
        asks_list(rt, book, asked)?;
    }
    Ok(())
}

fn lists_refused<S: Store>(rt: &impl Abort, book: &Book<S>) -> Result<(), Fail>
    requires { Whole S.Map.meaning book.now }
{
    let table = [
        Asked(List::InLabels, 3, 1, Err(BookFault::ShortBuffer)),
        Asked(List::InLabels, 3, 2, Ok(2)),
        Asked(List::InLabels, 3, 3, Ok(2)),
        Asked(List::InHolders, 1, 0, Err(BookFault::ShortBuffer)),
        Asked(List::OutLabels, 3, 0, Ok(0)),
        Asked(List::OutHolders, 4, 0, Ok(0)),
        Asked(List::InLabels, 9, 0, Err(BookFault::Unknown)),
        Asked(List::OutLabels, 0, 4, Err(BookFault::Unknown)),
        Asked(List::InHolders, 9, 4, Err(BookFault::Unknown)),
        Asked(List::OutHolders, 9, 0, Err(BookFault::Unknown)),
    ];
    asks(rt, book, &table)
}

// The out-lists, once the unit that hears the others is above them.
fn out_lists_refused<S: Store>(rt: &impl Abort, book: &mut Book<S>) -> Result<(), Fail>
    requires { Whole S.Map.meaning book.old }
{
    assert_eq!(rt; book.rank(3, 1), Ok(4));
    let table = [
        Asked(List::OutLabels, 2, 0, Err(BookFault::ShortBuffer)),
        Asked(List::OutLabels, 2, 1, Ok(1)),
        Asked(List::OutHolders, 3, 1, Err(BookFault::ShortBuffer)),
        Asked(List::OutHolders, 3, 2, Ok(2)),
    ];
    asks(rt, book, &table)
}

fn hears_refused<S: Store>(rt: &impl Abort, book: &Book<S>)
    requires { Whole S.Map.meaning book.now }
{
    assert_eq!(rt; book.hear(1, 9), Err(BookFault::Unknown));
    assert_eq!(rt; book.hear(9, 1), Err(BookFault::Unknown));
    assert_eq!(rt; book.hear(0, 0), Err(BookFault::Unknown));
    assert_eq!(rt; book.hear(1, 3), Ok(true));
    assert_eq!(rt; book.hear(3, 1), Ok(false));
}

fn refusals<S: Store>(rt: &impl Abort, book: &mut Book<S>) -> Result<(), Fail>
    requires { Whole S.Map.meaning book.old }
{
    small_book(rt, book)?;
    unit_refused(rt, book)?;
    rank_refused(rt, book)?;
    partners_refused(rt, book)?;
    pairings_refused(rt, book)?;
    lists_refused(rt, book)?;
    hears_refused(rt, book);
    is_small(rt, book)?;
    out_lists_refused(rt, book)
}

#[test]
fn refusals_over_the_grid(rt: HostRuntime) -> Result<(), Fail> {
    refusals(&rt, &mut Book::make(Grid::new()))
}
