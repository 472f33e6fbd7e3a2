// Random calls, put to the book and to one that computes all anew.
ghost use Rattle.book.specs.Views.{Whole};
ghost use Rattle.std.specs.Prelude.{◌≤◌};

use crate::brute::BruteBook;
use crate::changes::{Change, List, enrol, put};
use crate::random::Random;
use book::Book;
use grid::Grid;
use maps::Store;
use std::process::Abort;
use std::test::Fail;

const LISTS: [List; 4] = [
    List::InLabels,
    List::OutLabels,
    List::InHolders,
    List::OutHolders,
];

// A number of the units 1 to 8, or now and then 0.
fn some_unit(random: &mut Random) -> u8 {
    (random.below(33) + 3) / 4
}

fn some_units(random: &mut Random) -> [u8; 4] {
    [
        some_unit(random),
        some_unit(random),
        some_unit(random),
        some_unit(random),
    ]
}

// An enrolment of the first of the units, with others of them as partners.
fn some_enrolment<'a>(random: &mut Random, units: &'a [u8; 4]) -> Change<'a> {
    let rank = random.below(8);
    let sources = usize::from(random.below(3));
    let listeners = usize::from(random.below(2));
    enrol(
        units[0],
        rank,
        &units[1..1 + sources],
        &units[3..3 + listeners],
    )
}

// A change with some of the units.
fn some_change<'a>(random: &mut Random, units: &'a [u8; 4]) -> Change<'a> {
    match random.below(32) {
        0..=7 => some_enrolment(random, units),
        8 => Change::Drop(units[0]),
        9..=19 => Change::Pair(units[0], units[1]),
        20..=23 => Change::Unpair(units[0], units[1]),
        _ => Change::Rank(units[0], random.below(9)),
    }
}

// Puts one change to both, and tells how many labels it altered.
fn turn<S: Store>(
    rt: &impl Abort,
    book: &mut Book<S>,
    brute: &mut BruteBook,
    random: &mut Random,
) -> Result<u32, Fail>
    requires { Whole S.Map.meaning book.old }
    ensures { Whole S.Map.meaning book.new }
{
    let units = some_units(random);
    let change = some_change(random, &units);
    let answer = put(book, &change);
    assert_eq!(rt; answer, brute.put(&change));
    Ok(answer.unwrap_or(0))
}

// Asks both for a list of u, in a buffer of so many bytes.
fn compare_list<S: Store>(
    rt: &impl Abort,
    book: &Book<S>,
    brute: &BruteBook,
    list: List,
    u: u8,
    room: usize,
)
    requires whole { Whole S.Map.meaning book.now }
    requires fits { room ≤ 8 }
{
    let mut one = [200; 8];
    let mut other = [200; 8];
    assert_eq!(rt;
        book.list(list, u, &mut one[0..room]),
        brute.ask(list, u, &mut other[0..room])
    );
    assert_eq!(rt; one, other);
}

// Compares all lists of u, in so many bytes and in as many as a list can have.
fn compare_unit<S: Store>(rt: &impl Abort, book: &Book<S>, brute: &BruteBook, u: u8, room: usize)
    requires whole { Whole S.Map.meaning book.now }
    requires fits { room ≤ 8 }
{
    for list in LISTS {
        compare_list(rt, book, brute, list, u, room);
        compare_list(rt, book, brute, list, u, 8);
    }
}

// Compares all lists of every unit. The buffers' lengths vary with the units and from time to time.
fn compare_lists<S: Store>(rt: &impl Abort, book: &Book<S>, brute: &BruteBook, time: u16)
    requires { Whole S.Map.meaning book.now }
{
    for u in 0..10u8 {
        let room = usize::from((time % 9 + u16::from(u)) % 9);
        compare_unit(rt, book, brute, u, room);
    }
}

// Compares who hears whom.
fn compare_hearing<S: Store>(rt: &impl Abort, book: &Book<S>, brute: &BruteBook)
    requires { Whole S.Map.meaning book.now }
{
    for i in 0..100u8 {
        assert_eq!(rt; book.hear(i / 10, i % 10), brute.hear(i / 10, i % 10));
    }
}

// Compares all that the books tell, at every eighth time.
fn compare_at<S: Store>(
    rt: &impl Abort,
    book: &Book<S>,
    brute: &BruteBook,
    time: u16,
) -> Result<(), Fail>
    requires { Whole S.Map.meaning book.now }
{
    if time % 8 == 0 {
        compare_lists(rt, book, brute, time / 8);
        compare_hearing(rt, book, brute);
    }
    Ok(())
}

// Many changes, which alter many labels between them.
fn many_turns<S: Store>(rt: &impl Abort, book: &mut Book<S>, start: u32) -> Result<(), Fail>
    requires { Whole S.Map.meaning book.old }
{
    let mut brute = BruteBook::new();
    let mut random = Random::starting_at(start);
    let mut altered: u32 = 0;
    for time in 0..5000u16 {
        altered = altered.saturating_add(turn(rt, book, &mut brute, &mut random)?);
        compare_at(rt, book, &brute, time)?;
    }
    assert!(rt; altered > 1000, "labels altered: {altered}");
    Ok(())
}

#[test]
fn random_calls_over_the_grid(rt: HostRuntime) -> Result<(), Fail> {
    many_turns(&rt, &mut Book::make(Grid::new()), 1)?;
    many_turns(&rt, &mut Book::make(Grid::new()), 2026)
}
