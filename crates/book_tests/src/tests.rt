// The tests, over any store: each body takes an empty book.
ghost use Rattle.book.specs.Views.{Whole};

use crate::changes::{Change, List, enrol, put};
use book::Book;
use grid::Grid;
use maps::Store;
use plain::BookFault;
use std::process::Abort;
use std::test::Fail;

mod capacity;
mod comparison;
mod refusals;

// A change, and what the book must answer.
#[derive(Clone, Copy)]
struct Step<'a>(Change<'a>, Result<u32, BookFault>);

// A list of a unit, and what must stand in it.
#[derive(Clone, Copy)]
struct Told<'a>(List, u8, &'a [u8]);

fn play<S: Store>(rt: &impl Abort, book: &mut Book<S>, steps: &[Step<'_>]) -> Result<(), Fail>
    requires { Whole S.Map.meaning book.old }
    ensures { Whole S.Map.meaning book.new }
{
    for step in steps {
        assert_eq!(rt; put(book, &step.0), step.1);
    }
    Ok(())
}

fn tells_list<S: Store>(rt: &impl Abort, book: &Book<S>, told: &Told<'_>) -> Result<(), Fail>
    requires { Whole S.Map.meaning book.now }
{
    let mut buffer = [0; 255];
    let n = book.list(told.0, told.1, &mut buffer)?;
    assert!(rt; n <= 255);
    assert_eq!(rt; &buffer[0..n], told.2);
    Ok(())
}

fn tells<S: Store>(rt: &impl Abort, book: &Book<S>, lists: &[Told<'_>]) -> Result<(), Fail>
    requires { Whole S.Map.meaning book.now }
{
    for told in lists {
        tells_list(rt, book, told)?;
    }
    Ok(())
}

// How many units stand in the list of u.
fn length<S: Store>(book: &Book<S>, list: List, u: u8) -> usize
    requires { Whole S.Map.meaning book.now }
{
    book.list(list, u, &mut [0; 255]).unwrap_or(0)
}

// How many labels of u stand.
fn labels_of<S: Store>(book: &Book<S>, u: u8) -> usize
    requires { Whole S.Map.meaning book.now }
{
    length(book, List::InLabels, u).saturating_add(length(book, List::OutLabels, u))
}

// How many labels stand in all.
fn labels<S: Store>(book: &Book<S>) -> usize
    requires { Whole S.Map.meaning book.now }
{
    (1..=255u8).fold(
        0,
        |total: usize, u| total.saturating_add(labels_of(book, u)),
    )
}

// Drops every unit.
fn clear<S: Store>(book: &mut Book<S>)
    requires { Whole S.Map.meaning book.old }
    ensures { Whole S.Map.meaning book.new }
{
    for u in 1..=255u8 {
        let _ = book.drop_unit(u);
    }
}

// Plays the steps on the book once it has no unit, and looks at the lists and at how many labels there are.
fn case<S: Store>(
    rt: &impl Abort,
    book: &mut Book<S>,
    steps: &[Step<'_>],
    lists: &[Told<'_>],
    total: usize,
) -> Result<(), Fail>
    requires { Whole S.Map.meaning book.old }
    ensures { Whole S.Map.meaning book.new }
{
    clear(book);
    play(rt, book, steps)?;
    tells(rt, book, lists)?;
    assert_eq!(rt; labels(book), total);
    Ok(())
}

fn one_unit<S: Store>(rt: &impl Abort, book: &mut Book<S>) -> Result<(), Fail>
    requires { Whole S.Map.meaning book.old }
    ensures { Whole S.Map.meaning book.new }
{
    assert_eq!(rt; labels(book), 0);
    assert_eq!(rt; book.hear(1, 1), Err(BookFault::Unknown));
    play(rt, book, &[Step(enrol(1, 1, &[], &[]), Ok(0))])?;
    assert_eq!(rt; book.hear(1, 1), Ok(true));
    assert_eq!(rt; labels(book), 0);
    Ok(())
}

// Two ways from 1 to 4.
fn two_ways<S: Store>(rt: &impl Abort, book: &mut Book<S>) -> Result<(), Fail>
    requires { Whole S.Map.meaning book.old }
    ensures { Whole S.Map.meaning book.new }
{
    let steps = [
        Step(enrol(2, 1, &[], &[]), Ok(0)),
        Step(enrol(1, 2, &[], &[]), Ok(0)),
        Step(enrol(3, 3, &[], &[]), Ok(0)),
        Step(enrol(4, 4, &[], &[]), Ok(0)),
        Step(Change::Pair(1, 2), Ok(1)),
        Step(Change::Pair(1, 3), Ok(1)),
        Step(Change::Pair(2, 4), Ok(1)),
        Step(Change::Pair(3, 4), Ok(1)),
    ];
    let lists = [
        Told(List::InLabels, 4, &[2, 3]),
        Told(List::InLabels, 3, &[1]),
        Told(List::OutLabels, 1, &[2]),
        Told(List::InHolders, 2, &[4]),
        Told(List::OutHolders, 2, &[1]),
    ];
    case(rt, book, &steps, &lists, 4)
}

// 3 between 1, 2 and 4, 5: it has the highest rank.
fn middle_first<S: Store>(rt: &impl Abort, book: &mut Book<S>) -> Result<(), Fail>
    requires { Whole S.Map.meaning book.old }
    ensures { Whole S.Map.meaning book.new }
{
    let steps = [
        Step(enrol(3, 1, &[], &[]), Ok(0)),
        Step(enrol(1, 2, &[], &[3]), Ok(1)),
        Step(enrol(2, 3, &[], &[3]), Ok(1)),
        Step(enrol(4, 4, &[3], &[]), Ok(1)),
        Step(enrol(5, 5, &[3], &[]), Ok(1)),
    ];
    let lists = [
        Told(List::InHolders, 3, &[4, 5]),
        Told(List::OutHolders, 3, &[1, 2]),
    ];
    case(rt, book, &steps, &lists, 4)
}

// The same pairings: it has the lowest rank.
fn middle_last<S: Store>(rt: &impl Abort, book: &mut Book<S>) -> Result<(), Fail>
    requires { Whole S.Map.meaning book.old }
    ensures { Whole S.Map.meaning book.new }
{
    let steps = [
        Step(enrol(1, 1, &[], &[]), Ok(0)),
        Step(enrol(2, 2, &[], &[]), Ok(0)),
        Step(enrol(4, 3, &[], &[]), Ok(0)),
        Step(enrol(5, 4, &[], &[]), Ok(0)),
        Step(enrol(3, 5, &[2, 1], &[5, 4]), Ok(8)),
    ];
    let lists = [
        Told(List::InLabels, 3, &[1, 2]),
        Told(List::OutLabels, 3, &[4, 5]),
        Told(List::InLabels, 4, &[1, 2]),
        Told(List::InLabels, 5, &[1, 2]),
    ];
    case(rt, book, &steps, &lists, 8)
}

// A dropped unit uncovers a label.
fn drop_between<S: Store>(rt: &impl Abort, book: &mut Book<S>) -> Result<(), Fail>
    requires { Whole S.Map.meaning book.old }
    ensures { Whole S.Map.meaning book.new }
{
    let steps = [
        Step(enrol(2, 1, &[], &[]), Ok(0)),
        Step(enrol(1, 2, &[], &[2]), Ok(1)),
        Step(enrol(3, 3, &[2], &[]), Ok(1)),
        Step(Change::Pair(1, 3), Ok(0)),
        Step(Change::Drop(2), Ok(3)),
    ];
    case(rt, book, &steps, &[Told(List::InLabels, 3, &[1])], 1)
}

// An enrolled unit covers one.
fn enrol_between<S: Store>(rt: &impl Abort, book: &mut Book<S>) -> Result<(), Fail>
    requires { Whole S.Map.meaning book.old }
    ensures { Whole S.Map.meaning book.new }
{
    let steps = [
        Step(enrol(1, 1, &[], &[]), Ok(0)),
        Step(enrol(3, 2, &[1], &[]), Ok(1)),
        Step(enrol(2, 1, &[1], &[3]), Ok(3)),
    ];
    let lists = [
        Told(List::InLabels, 3, &[2]),
        Told(List::OutLabels, 1, &[2]),
    ];
    case(rt, book, &steps, &lists, 2)
}

// One rank more is open to a unit that is enrolled than to one that is moved.
fn last_rank<S: Store>(rt: &impl Abort, book: &mut Book<S>) -> Result<(), Fail>
    requires { Whole S.Map.meaning book.old }
    ensures { Whole S.Map.meaning book.new }
{
    let steps = [
        Step(enrol(1, 1, &[], &[]), Ok(0)),
        Step(enrol(2, 2, &[1], &[]), Ok(1)),
        Step(Change::Rank(1, 3), Err(BookFault::RankOutside)),
        Step(Change::Rank(1, 2), Ok(2)),
        Step(enrol(3, 3, &[], &[]), Ok(0)),
    ];
    case(rt, book, &steps, &[Told(List::OutLabels, 1, &[2])], 1)
}

fn small_cases<S: Store>(rt: &impl Abort, book: &mut Book<S>) -> Result<(), Fail>
    requires { Whole S.Map.meaning book.old }
{
    one_unit(rt, book)?;
    two_ways(rt, book)?;
    middle_first(rt, book)?;
    middle_last(rt, book)?;
    drop_between(rt, book)?;
    enrol_between(rt, book)?;
    last_rank(rt, book)
}

#[test]
fn small_cases_over_the_grid(rt: HostRuntime) -> Result<(), Fail> {
    small_cases(&rt, &mut Book::make(Grid::new()))
}
