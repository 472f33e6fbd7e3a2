// Where the fields of a line begin, counted from 1, and at which of them a fault is told.
#![tactic(auto)]

ghost use Rattle.std.specs.Prelude.{◌≡◌, ◌+◌, ◌≤◌, length, decimal};
ghost use Rattle.grammar.specs.Grammar.{fields, LawfulFields};
ghost use Rattle.lines.specs.Lines.{said};
ghost use Rattle.plain_named.specs.Lines.{place};
ghost use Rattle.plain_named.specs.Replies.{rank_field, fault_field, fault_place, placed};

use answers::{LineFault, Refusal, Told};
use lines::Line;
use plain::BookFault;

// How many digits the number has. The library's logarithm has no answer at 0, so the arms are plainer.
pub fn digits(n: u8) -> u8
    ensures is { result ≡ length (decimal n) }
    ensures few { result ≤ 3 }
{
    match n {
        0..=9 => 1,
        10..=99 => 2,
        _ => 3,
    }
}

// How many bytes the first field has. That the fields are lawful is asked here and below: a line is an enum, and with a
// struct round it for that fact each `match` would be longer.
fn first_len(line: Line<'_>) -> u8
    requires { LawfulFields (fields (said line)) }
    ensures is { 4 + result ≡ place (said line.entry) 1 }
    ensures short { result ≤ 16 }
{
    match line {
        Line::Enrol { number, .. } => digits(number),
        Line::Drop { name } | Line::Rank { name, .. } => name.len() as u8,
        Line::Pair { source, .. } | Line::Unpair { source, .. } | Line::Hear { source, .. } => {
            source.len() as u8
        }
    }
}

// The place of the rank, the last field of its line.
fn rank_place(line: Line<'_>) -> u8
    requires { LawfulFields (fields (said line)) }
    ensures { result ≡ place (said line.entry) (rank_field (said line.entry)) }
{
    let second = 4 + first_len(line);
    match line {
        Line::Enrol { name, .. } => second + 1 + name.len() as u8,
        _ => second,
    }
}

// The place at which a fault of the book is told.
fn book_place(line: Line<'_>, fault: BookFault) -> u8
    requires { LawfulFields (fields (said line)) }
    ensures { result ≡ place (said line.entry) (fault_field (said line.entry) fault) }
{
    match fault {
        BookFault::Zero | BookFault::Standing => 3,
        BookFault::RankOutside => rank_place(line),
        _ => 4 + first_len(line),
    }
}

// The fault, with the place at which it is told.
fn refusal(line: Line<'_>, fault: LineFault) -> Refusal
    requires { LawfulFields (fields (said line)) }
    ensures { result ≡ record { fault = fault; place = fault_place (said line.entry) fault } }
{
    let place = match fault {
        LineFault::Form(cause) => cause.place,
        LineFault::Name(cause) => cause.place(),
        LineFault::Book(cause) => book_place(line, cause),
    };
    Refusal { fault, place }
}

// The answer to a line, with the place of a fault. Arms, since of a `map_err` whose closure captures the line the proof did
// not close.
pub fn with_place(line: Line<'_>, answer: Result<Told, LineFault>) -> Result<Told, Refusal>
    requires { LawfulFields (fields (said line)) }
    ensures { result ≡ placed (said line.entry) answer }
{
    match answer {
        Ok(told) => Ok(told),
        Err(fault) => Err(refusal(line, fault)),
    }
}
