// A history as text: one call a line, words with one space between, numbers in decimal, bytes in hexadecimal. An empty line
// and a line that begins with # say nothing. A line that says something else is refused with its number and a place in it.
#![tactic(auto)]

ghost use Rattle.std.specs.Prelude.{IfErr};
ghost use Rattle.scripts.specs.Within.{Within};

use history::{Call, List};
use std::alloc::{AllocError, Global};
use thiserror::Error;

mod words;

pub use words::Why;
use words::{Flaw, Words, place_of};

// Where a script is no history: its line and the place in the line, both counted from 1, and why; or want of memory.
#[derive(Clone, Copy, Debug, Error)]
pub enum ScriptFault {
    #[error("line {line}, place {place}: {why}")]
    Malformed { line: usize, place: usize, why: Why },
    #[error(transparent)]
    Memory(#[from(alloc)] AllocError),
}

// A history: the page with which the book begins, where it begins with one; and the calls with the numbers of their lines.
// The calls are a list of their own, since `replay` takes them as one slice.
#[derive(Drop)]
pub struct Script {
    pub page: Option<Vec<u8>>,
    pub calls: Vec<Call>,
    pub lines: Vec<usize>,
}

// What a line says that says something.
#[derive(Drop)]
enum Said {
    Start(Vec<u8>),
    Call(Call),
}

// The call of one of the four lists.
fn list_call(words: &Words, list: List) -> Result<Call, Flaw> {
    let unit = words.number(1)?;
    let room = words.number::<u16>(2)?;
    words.end(3)?;
    Ok(Call::List {
        list,
        unit,
        room: usize::from(room),
    })
}

// Two units, and nothing after them.
fn two(words: &Words) -> Result<(u8, u8), Flaw> {
    let a = words.number(1)?;
    let b = words.number(2)?;
    words.end(3)?;
    Ok((a, b))
}

fn enrolment(heap: Global, words: &Words) -> Result<Call, Flaw> {
    Ok(Call::Enrol {
        unit: words.number(1)?,
        rank: words.number(2)?,
        with: words.partners(heap, 3)?,
    })
}

fn best(heap: Global, words: &Words) -> Result<Call, Flaw> {
    Ok(Call::BestPlace {
        unit: words.number(1)?,
        with: words.partners(heap, 2)?,
    })
}

// The sheet after the two units: the units that are off after the word `off`, or a whole sheet after the word `sheet`.
fn sheet(heap: Global, words: &Words) -> Result<Vec<u8>, Flaw> {
    if words.is(3, "sheet") {
        words.end(5)?;
        return words.bytes(heap, 4);
    }
    if !words.is(3, "off") {
        words.end(3)?;
    }
    words.off_sheet(heap, 4)
}

// `reach S T`, and a sheet.
fn reach(heap: Global, words: &Words) -> Result<Call, Flaw> {
    Ok(Call::Reach {
        source: words.number(1)?,
        listener: words.number(2)?,
        sheet: sheet(heap, words)?,
    })
}

// The call of a change.
fn change(heap: Global, words: &Words) -> Result<Option<Call>, Flaw> {
    let call = match words.name() {
        "enrol" => enrolment(heap, words)?,
        "drop" => {
            words.end(2)?;
            Call::Drop(words.number(1)?)
        }
        "pair" => {
            let (a, b) = two(words)?;
            Call::Pair(a, b)
        }
        "unpair" => {
            let (a, b) = two(words)?;
            Call::Unpair(a, b)
        }
        "rank" => {
            let (unit, rank) = two(words)?;
            Call::Rank(unit, rank)
        }
        "load" => {
            words.end(2)?;
            Call::Load(words.bytes(heap, 1)?)
        }
        _ => return Ok(None),
    };
    Ok(Some(call))
}

fn save(words: &Words) -> Result<Call, Flaw> {
    let place = words.number::<u16>(1)?;
    let room = words.number::<u16>(2)?;
    words.end(3)?;
    Ok(Call::Save {
        place: usize::from(place),
        room: usize::from(room),
    })
}

// The call of a question.
fn question(heap: Global, words: &Words) -> Result<Call, Flaw> {
    match words.name() {
        "hear" => {
            let (s, t) = two(words)?;
            Ok(Call::Hear(s, t))
        }
        "best" => best(heap, words),
        "in-labels" => list_call(words, List::InLabels),
        "out-labels" => list_call(words, List::OutLabels),
        "in-holders" => list_call(words, List::InHolders),
        "out-holders" => list_call(words, List::OutHolders),
        "reach" => reach(heap, words),
        "save" => save(words),
        _ => Err(Flaw::At(0, Why::Call)),
    }
}

// What a line says. The book begins with a page only on the first line that says something.
fn read_line(heap: Global, line: &str, first: bool) -> Result<Option<Said>, Flaw> {
    if line.is_empty() || line.starts_with('#') {
        return Ok(None);
    }
    let words = Words::of(heap, line)?;
    if first && words.is(0, "start") {
        words.end(2)?;
        return Ok(Some(Said::Start(words.bytes(heap, 1)?)));
    }
    match change(heap, &words)? {
        Some(call) => Ok(Some(Said::Call(call))),
        None => Ok(Some(Said::Call(question(heap, &words)?))),
    }
}

impl Script {
    fn empty(heap: Global) -> Script {
        Script {
            page: None,
            calls: Vec::new(heap),
            lines: Vec::new(heap),
        }
    }

    // Whether no line has said anything.
    fn is_empty(&self) -> bool {
        self.page.is_none() && self.calls.is_empty()
    }

    // Adds what a line says.
    fn add(&mut self, line: usize, said: Option<Said>) -> Result<(), AllocError> {
        match said {
            None => {}
            Some(Said::Start(page)) => self.page = Some(page),
            Some(Said::Call(call)) => {
                self.calls.push(call)?;
                self.lines.push(line)?;
            }
        }
        Ok(())
    }
}

// The history that a text says. Each flaw is turned by hand: the clause names the line and the place of the fault, and a
// derived `From` has no contract that could.
pub fn read(heap: Global, text: &str) -> Result<Script, ScriptFault>
    ensures { IfErr result (Within text.now) }
{
    let mut script = Script::empty(heap);
    for (i, line) in text.lines().enumerate() {
        match read_line(heap, line, script.is_empty()) {
            Ok(said) => script.add(i + 1, said).map_err(ScriptFault::Memory)?,
            Err(Flaw::At(word, why)) => {
                return Err(ScriptFault::Malformed {
                    line: i + 1,
                    place: place_of(line, word),
                    why,
                });
            }
            Err(Flaw::Memory(e)) => return Err(ScriptFault::Memory(e)),
        }
    }
    Ok(script)
}
