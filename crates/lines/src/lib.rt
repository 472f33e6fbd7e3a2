// The line language: a line of bytes, and what it says.
//
// A line is a letter and its fields, each with one space before it. Reading goes from the front, and a field is the
// longest start of the rest that can be one, so the place of the first byte that cannot go on is known at once.
#![tactic(auto)]

ghost use Rattle.std.specs.Prelude.{◌≡◌, ℕ, List, ◌++◌, Some, codes, decimal, Result};
ghost use Rattle.grammar.specs.Grammar.{Said, Right};
ghost use Rattle.lines.specs.Lines.{said, placed};
ghost use Rattle.lines.specs.Rests.{read_as};
ghost use Rattle.grammar.specs.Reading.{read, read_by, read_enrol, read_drop, read_rank, read_two};

mod rest;
mod texts;

use rest::Rest;
use std::fmt;
pub use texts::{Lines, split_line};

// What a line says. Names are parts of the line.
#[derive(Clone, Copy)]
pub enum Line<'a> {
    Enrol {
        number: u8,
        name: &'a [u8],
        rank: u8,
    },
    Drop {
        name: &'a [u8],
    },
    Pair {
        source: &'a [u8],
        listener: &'a [u8],
    },
    Unpair {
        source: &'a [u8],
        listener: &'a [u8],
    },
    Rank {
        name: &'a [u8],
        rank: u8,
    },
    Hear {
        source: &'a [u8],
        listener: &'a [u8],
    },
}

// A line that is not lawful, with the place of the first byte where no lawful line could go on, counted from 1.
// No lawful line is longer than 35 bytes, so a place is at most 36.
#[derive(Clone, Copy, PartialEq, Eq, Debug)]
pub struct Malformed {
    pub place: u8,
}

// Written out: its `output` is an equation, which callers use.
impl fmt::Display for Malformed {
    ghost output = { λ m. Some (codes "refused 12 L " ++ decimal m.place) };

    fn fmt<W: fmt::Write>(&self, f: &mut fmt::Formatter<W>) -> fmt::Result {
        let place = self.place;
        write!(f, "refused 12 L {place}")
    }
}

// The rest of a line after each letter. What is malformed is told by its place.
fn parse_enrol(rest: Rest<'_>) -> Result<Line<'_>, usize>
    ensures { read_as said result ≡ read_enrol rest.entry.bytes.now rest.entry.place }
{
    let (number, rest) = rest.number()?;
    let (name, rest) = rest.name()?;
    let (rank, rest) = rest.number()?;
    rest.end()?;
    Ok(Line::Enrol { number, name, rank })
}

fn parse_drop(rest: Rest<'_>) -> Result<Line<'_>, usize>
    ensures { read_as said result ≡ read_drop rest.entry.bytes.now rest.entry.place }
{
    let (name, rest) = rest.name()?;
    rest.end()?;
    Ok(Line::Drop { name })
}

fn parse_rank(rest: Rest<'_>) -> Result<Line<'_>, usize>
    ensures { read_as said result ≡ read_rank rest.entry.bytes.now rest.entry.place }
{
    let (name, rest) = rest.name()?;
    let (rank, rest) = rest.number()?;
    rest.end()?;
    Ok(Line::Rank { name, rank })
}

fn two_names(rest: Rest<'_>) -> Result<(&[u8], &[u8]), usize>
    ensures { (says : List ℕ → List ℕ → Said) → read_as (λ x. says x.0.now x.1.now) result ≡ read_two says rest.entry.bytes.now rest.entry.place }
{
    let (source, rest) = rest.name()?;
    let (listener, rest) = rest.name()?;
    rest.end()?;
    Ok((source, listener))
}

// The letter decides how the bytes after it are read.
fn parse_after(letter: u8, bytes: &[u8]) -> Result<Line<'_>, usize>
    ensures { read_as said result ≡ read_by letter bytes.now }
{
    let rest = Rest { bytes, place: 2 };
    match letter {
        b'e' => parse_enrol(rest),
        b'd' => parse_drop(rest),
        b'p' => two_names(rest).map(|(source, listener)| Line::Pair { source, listener }),
        b'a' => two_names(rest).map(|(source, listener)| Line::Unpair { source, listener }),
        b'r' => parse_rank(rest),
        b'h' => two_names(rest).map(|(source, listener)| Line::Hear { source, listener }),
        _ => Err(1),
    }
}

// What the line says, or the place where it is malformed: the one answer that is right.
pub fn parse(line: &[u8]) -> Result<Line<'_>, Malformed>
    ensures is { placed said result ≡ read line.now }
    ensures right { Right line.now (placed said result) }
    ensures only { (other : Result Said ℕ) → Right line.now other → other ≡ placed said result }
{
    let [letter, bytes @ ..] = line else {
        return Err(Malformed { place: 1 });
    };
    // a match: the closure of a `map_err` would need a clause that the place fits its byte, and be no plainer
    match parse_after(*letter, bytes) {
        Ok(said) => Ok(said),
        Err(place) => Err(Malformed { place: place as u8 }),
    }
}
