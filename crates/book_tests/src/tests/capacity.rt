// A book with as many pairings as its store has room for, which are 8000.
ghost use Rattle.book.specs.Views.{Whole};

use super::{Step, play};
use crate::changes::{Change, enrol};
use book::Book;
use grid::Grid;
use maps::{Store, StoreFault};
use plain::BookFault;
use std::process::Abort;
use std::test::Fail;

// The numbers from 1 to 126.
fn numbers() -> [u8; 126] {
    let mut all = [0; 126];
    for (number, i) in all.iter_mut().zip(1..=126u8) {
        *number = i;
    }
    all
}

// Enrols the units 1 to 126, each as a listener of all before it and above them: 7875 pairings.
fn fill<S: Store>(rt: &impl Abort, book: &mut Book<S>, all: &[u8; 126]) -> Result<(), Fail>
    requires { Whole S.Map.meaning book.old }
    ensures { Whole S.Map.meaning book.new }
{
    for v in 0..126u8 {
        let answer = book.enrol(v + 1, 1, &all[0..usize::from(v)], &[]);
        assert_eq!(rt; answer, Ok(u32::from(v)));
    }
    Ok(())
}

// Unit 127 hears all but 126, so that there is no more room.
fn full_book<S: Store>(rt: &impl Abort, book: &mut Book<S>, all: &[u8; 126])
    requires { Whole S.Map.meaning book.old }
    ensures { Whole S.Map.meaning book.new }
{
    let too_many = book.enrol(127, 1, all, &[]);
    assert_eq!(rt; too_many, Err(BookFault::Store(StoreFault::Full)));
    assert_eq!(rt; book.enrol(127, 1, &all[0..125], &[]), Ok(125));
}

// Every other cause comes before the want of room.
fn other_causes_first<S: Store>(rt: &impl Abort, book: &mut Book<S>) -> Result<(), Fail>
    requires { Whole S.Map.meaning book.old }
    ensures { Whole S.Map.meaning book.new }
{
    let steps = [
        Step(Change::Pair(128, 1), Err(BookFault::Unknown)),
        Step(Change::Pair(127, 1), Err(BookFault::Ring)),
        Step(Change::Pair(1, 1), Err(BookFault::Ring)),
        Step(Change::Pair(1, 2), Err(BookFault::AlreadyPaired)),
        Step(enrol(0, 1, &[1], &[]), Err(BookFault::Zero)),
        Step(enrol(1, 1, &[2], &[]), Err(BookFault::Standing)),
        Step(enrol(128, 129, &[1], &[]), Err(BookFault::RankOutside)),
        Step(enrol(128, 1, &[128], &[]), Err(BookFault::Unknown)),
        Step(enrol(128, 1, &[1, 1], &[]), Err(BookFault::Doubled)),
        Step(enrol(128, 1, &[2], &[1]), Err(BookFault::Ring)),
    ];
    play(rt, book, &steps)
}

// What asks for no room is granted, and room that is given back is used again.
fn frees_and_refills<S: Store>(rt: &impl Abort, book: &mut Book<S>) -> Result<(), Fail>
    requires { Whole S.Map.meaning book.old }
    ensures { Whole S.Map.meaning book.new }
{
    let full = Err(BookFault::Store(StoreFault::Full));
    let steps = [
        Step(Change::Pair(126, 127), full),
        Step(enrol(128, 1, &[1], &[]), full),
        Step(enrol(128, 1, &[], &[1]), full),
        Step(enrol(128, 128, &[], &[]), Ok(0)),
        Step(Change::Unpair(1, 2), Ok(1)),
        Step(Change::Pair(126, 127), Ok(1)),
        Step(Change::Pair(1, 2), full),
        Step(Change::Unpair(2, 3), Ok(1)),
        Step(Change::Pair(1, 2), Ok(1)),
    ];
    play(rt, book, &steps)
}

fn capacity<S: Store>(rt: &impl Abort, book: &mut Book<S>) -> Result<(), Fail>
    requires { Whole S.Map.meaning book.old }
{
    let all = numbers();
    fill(rt, book, &all)?;
    full_book(rt, book, &all);
    other_causes_first(rt, book)?;
    frees_and_refills(rt, book)
}

#[test]
fn capacity_of_the_grid(rt: HostRuntime) -> Result<(), Fail> {
    capacity(&rt, &mut Book::make(Grid::new()))
}
