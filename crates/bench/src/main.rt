// Plays a workload of enrolments, pairings and drops over the grid, and tells how many labels stand at the end and their
// checksum. With the argument `time` it also tells, on standard error, how long a change of each kind and a question took.
//
// A workload has one change a line, numbers in decimal: `e V K S.. / L..` enrols V at rank K with sources S.. and listeners
// L.., `p A B` pairs A to B, and `d V` drops V.
#![tactic(auto)]

ghost use Rattle.grid.specs.Held.{grid_map};
ghost use Rattle.book.specs.Views.{Whole};

use anyhow::anyhow;
use book::Book;
use grid::Grid;
use labels::List;
use plain::BookFault;
use std::alloc::Global;
use std::env;
use std::io::{BufReader, Read};
use std::time::{Duration, Instant};

// The two lists of an enrolment have lengths of their own.
#[derive(Drop)]
enum Change {
    Enrol {
        unit: u8,
        rank: u8,
        sources: Vec<u8>,
        listeners: Vec<u8>,
    },
    Pair(u8, u8),
    Drop(u8),
}

// How often something was done, and for how long in all.
#[derive(Clone, Copy, Default)]
struct Spent {
    times: u32,
    nanos: u128,
}

impl Spent {
    // With once more.
    fn with(self, took: Duration) -> Spent {
        Spent {
            times: self.times.saturating_add(1),
            nanos: self.nanos.saturating_add(took.as_nanos()),
        }
    }

    // Nanoseconds for each time.
    fn each(self) -> u128 {
        self.nanos / u128::from(self.times.max(1))
    }
}

// What the changes of each kind took.
#[derive(Clone, Copy, Default)]
struct Times {
    // those after the first drop
    enrol: Spent,
    pair: Spent,
    drop: Spent,
}

// The number that a word writes.
fn number(word: Option<&str>) -> anyhow::Result<u8> {
    let Some(text) = word else {
        return Err(anyhow!("a number is missing"));
    };
    Ok(text.parse()?)
}

// An enrolment, from the words after its letter: the sources before a stroke, the listeners after it.
fn enrolment(heap: Global, line: &str) -> anyhow::Result<Change> {
    let mut words = line.split(' ').skip(1);
    let unit = number(words.next())?;
    let rank = number(words.next())?;
    let mut sources = Vec::new(heap);
    for word in words.by_ref().take_while(|word| *word != "/") {
        sources.push(number(Some(word))?)?;
    }
    let mut listeners = Vec::new(heap);
    for word in words.filter(|word| *word != "/") {
        listeners.push(number(Some(word))?)?;
    }
    Ok(Change::Enrol {
        unit,
        rank,
        sources,
        listeners,
    })
}

// The change that a line writes.
fn parse_change(heap: Global, line: &str) -> anyhow::Result<Change> {
    let mut words = line.split(' ');
    match words.next() {
        Some("e") => enrolment(heap, line),
        Some("p") => Ok(Change::Pair(number(words.next())?, number(words.next())?)),
        Some("d") => Ok(Change::Drop(number(words.next())?)),
        _ => Err(anyhow!("a line is no change")),
    }
}

// Puts the change to the book.
fn play(book: &mut Book<Grid>, change: &Change) -> Result<u32, BookFault>
    requires { Whole grid_map book.old }
    ensures { Whole grid_map book.new }
{
    match change {
        Change::Enrol {
            unit,
            rank,
            sources,
            listeners,
        } => book.enrol(*unit, *rank, sources.as_slice(), listeners.as_slice()),
        Change::Pair(a, b) => book.pair(*a, *b),
        Change::Drop(v) => book.drop_unit(*v),
    }
}

// All changes of a workload.
fn read_changes(rt: &HostRuntime) -> anyhow::Result<Vec<Change>> {
    let mut text = String::new(rt.alloc());
    let mut input = BufReader::new(rt.alloc(), rt.stdin())?;
    let _ = input.read_to_string(&mut text)?;
    let mut changes = Vec::new(rt.alloc());
    for line in text.as_str().lines() {
        changes.push(parse_change(rt.alloc(), line)?)?;
    }
    Ok(changes)
}

// The number of labels so far, and the checksum of their lists.
#[derive(Clone, Copy, Default)]
struct Summary {
    labels: usize,
    hash: u32,
}

impl Summary {
    // With a list more.
    fn with(self, units: &[u8]) -> Summary {
        Summary {
            labels: self.labels.saturating_add(units.len()),
            hash: units.iter().fold(
                self.hash,
                |hash, u| hash.wrapping_mul(31).wrapping_add(u32::from(*u)),
            ),
        }
    }
}

// With one list of u, by rank.
fn with_list(book: &Book<Grid>, list: List, u: u8, so_far: Summary) -> Summary
    requires { Whole grid_map book.now }
{
    let mut buffer = [0u8; 255];
    match book.list(list, u, &mut buffer) {
        Ok(n) => so_far.with(&buffer[..n]),
        Err(_) => so_far,
    }
}

// With the in-labels of u, and then its out-labels.
fn with_unit(book: &Book<Grid>, u: u8, so_far: Summary) -> Summary
    requires { Whole grid_map book.now }
{
    let more = with_list(book, List::InLabels, u, so_far);
    with_list(book, List::OutLabels, u, more)
}

// Over the units by number.
fn sum_up(book: &Book<Grid>) -> Summary
    requires { Whole grid_map book.now }
{
    (1..=u8::MAX).fold(Summary::default(), |all, u| with_unit(book, u, all))
}

// Plays all changes, and adds up how long each kind took.
fn play_all(rt: &HostRuntime, book: &mut Book<Grid>, changes: &[Change]) -> anyhow::Result<Times>
    requires { Whole grid_map book.old }
    ensures { Whole grid_map book.new }
{
    let mut times = Times::default();
    for change in changes {
        let began = Instant::now(rt)?;
        let _ = play(book, change);
        let took = began.elapsed(rt)?;
        match change {
            Change::Enrol { .. } if times.drop.times == 0 => {}
            Change::Enrol { .. } => times.enrol = times.enrol.with(took),
            Change::Pair(_, _) => times.pair = times.pair.with(took),
            Change::Drop(_) => times.drop = times.drop.with(took),
        }
    }
    Ok(times)
}

// How many units hear s.
fn hearers_of(book: &Book<Grid>, s: u8) -> usize
    requires { Whole grid_map book.now }
{
    (1..=u8::MAX)
        .filter(|t| book.hear(s, *t) == Ok(true))
        .count()
}

// How many of all questions whether one unit hears another are answered yes.
fn heard_in_all(book: &Book<Grid>) -> usize
    requires { Whole grid_map book.now }
{
    (1..=u8::MAX).fold(0usize, |yes, s| yes.saturating_add(hearers_of(book, s)))
}

// Whether the times are asked for.
fn is_timed(rt: &HostRuntime) -> anyhow::Result<bool> {
    Ok(env::args(rt)?.skip(1).any(|word| word.as_str() == "time"))
}

// Tells the times on standard error.
fn report(rt: &HostRuntime, book: &Book<Grid>, times: Times) -> anyhow::Result<()>
    requires { Whole grid_map book.now }
{
    let enrol = times.enrol.each();
    let pair = times.pair.each();
    let drop = times.drop.each();
    eprintln!(rt; "re-enrol: {enrol} ns, pair: {pair} ns, drop: {drop} ns")?;
    let began = Instant::now(rt)?;
    let yes = heard_in_all(book);
    let hear = began.elapsed(rt)?.as_nanos() / 65025;
    eprintln!(rt; "hear: {hear} ns ({yes} of 65025 yes)")?;
    Ok(())
}

fn main(rt: HostRuntime) -> anyhow::Result<()> {
    let changes = read_changes(&rt)?;
    let mut book = Book::make(Grid::new());
    let times = play_all(&rt, &mut book, changes.as_slice())?;
    let Summary { labels, hash } = sum_up(&book);
    println!(rt; "labels: {labels} checksum: {hash}")?;
    if is_timed(&rt)? {
        report(&rt, &book, times)?;
    }
    Ok(())
}
