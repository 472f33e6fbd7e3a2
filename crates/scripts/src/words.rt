// The words of a line, and what they say.
ghost use Rattle.std.specs.Prelude.{◌+◌, ◌≤◌, length};

use history::Partners;
use std::alloc::{AllocError, Global};
use std::num::ParseIntError;
use std::str::FromStr;
use thiserror::Error;

// Why a line says no call.
#[derive(Clone, Copy, Debug, PartialEq, Eq, Error)]
pub enum Why {
    // the first word names no call
    #[error("this names no call")]
    Call,
    // a word is missing
    #[error("a word is missing")]
    Word,
    // a word is not a number in the range
    #[error("a number is wanted here, and within its range")]
    Number,
    // a word is not bytes in hexadecimal
    #[error("bytes are wanted here, two hexadecimal digits each, or - for none")]
    Bytes,
    // this word is not wanted here
    #[error("this word is not wanted here")]
    Rest,
}

// At which word, counted from 0, a line says no call, and why; or want of memory.
#[derive(Clone, Copy, Debug, Error)]
pub(crate) enum Flaw {
    #[error("word {0}: {1}")]
    At(usize, Why),
    #[error(transparent)]
    Memory(#[from(alloc)] AllocError),
}

// Where the word begins in the line, counted from 1; one past the end where the line has no such word.
pub(crate) fn place_of(line: &str, word: usize) -> usize
    ensures low { 1 ≤ result }
    ensures high { result ≤ length line.now + 1 }
{
    let Some(k) = word.checked_sub(1) else {
        return 1;
    };
    let mut spaces = line.bytes().enumerate().filter(|(_, b)| *b == b' ');
    match spaces.nth(k) {
        Some((at, _)) => at + 2,
        None => line.len() + 1,
    }
}

// Whether the byte is a hexadecimal digit and no capital.
fn is_digit(b: u8) -> bool {
    matches!(b, b'0'..=b'9' | b'a'..=b'f')
}

// The words of a line, one space between.
#[derive(Drop)]
pub(crate) struct Words<'a>(Vec<&'a str>);

impl<'a> Words<'a> {
    pub(crate) fn of(heap: Global, line: &'a str) -> Result<Words<'a>, AllocError> {
        Ok(Words(line.split(' ').collect(heap)?))
    }

    fn get(&self, i: usize) -> Option<&'a str> {
        self.0.get(i).copied()
    }

    // The first word: a line has one, if an empty one.
    pub(crate) fn name(&self) -> &'a str {
        self.get(0).unwrap_or("")
    }

    pub(crate) fn is(&self, i: usize, text: &str) -> bool {
        self.get(i) == Some(text)
    }

    fn at(&self, i: usize) -> Result<&'a str, Flaw> {
        self.get(i).ok_or(Flaw::At(i, Why::Word))
    }

    // No word comes after the first n. A match, since here it is `Some` that is refused.
    pub(crate) fn end(&self, n: usize) -> Result<(), Flaw> {
        match self.get(n) {
            Some(_) => Err(Flaw::At(n, Why::Rest)),
            None => Ok(()),
        }
    }

    // A number in the range of its type, in digits alone.
    pub(crate) fn number<N: FromStr<Err = ParseIntError>>(&self, i: usize) -> Result<N, Flaw> {
        let text = self.at(i)?;
        if !text.starts_with(|c: char| c.is_ascii_digit()) {
            return Err(Flaw::At(i, Why::Number));
        }
        text.parse().map_err(|_| Flaw::At(i, Why::Number))
    }

    // The numbers from one word to before another.
    fn numbers(&self, heap: Global, from: usize, to: usize) -> Result<Vec<u8>, Flaw> {
        (from..to).map(|i| self.number(i)).try_collect(heap)
    }

    // Bytes, two hexadecimal digits each and no capitals; - for none.
    pub(crate) fn bytes(&self, heap: Global, i: usize) -> Result<Vec<u8>, Flaw> {
        let text = self.at(i)?;
        if text == "-" {
            return Ok(Vec::new(heap));
        }
        // before memory is asked for: what is refused takes none
        if text.len() % 2 != 0 || !text.bytes().all(is_digit) {
            return Err(Flaw::At(i, Why::Bytes));
        }
        let mut bytes = vec![in heap; 0u8; text.len() / 2]?;
        hex::decode_to_slice(text, bytes.as_mut_slice()).map_err(|_| Flaw::At(i, Why::Bytes))?;
        Ok(bytes)
    }

    // The numbers after a word that begins their list, to before a word; none where the list does not begin.
    fn listed(&self, heap: Global, begin: &str, from: usize, to: usize) -> Result<Vec<u8>, Flaw> {
        if from < to && !self.is(from, begin) {
            return Err(Flaw::At(from, Why::Rest));
        }
        self.numbers(heap, from.saturating_add(1), to)
    }

    // The sources after the word `from` and the listeners after the word `to`, each word at most once, in this order.
    pub(crate) fn partners(&self, heap: Global, first: usize) -> Result<Partners, Flaw> {
        let end = self.0.len();
        let to = (first..end).find(|i| self.is(*i, "to")).unwrap_or(end);
        Ok(Partners {
            sources: self.listed(heap, "from", first, to)?,
            listeners: self.listed(heap, "to", to, end)?,
        })
    }

    // An off sheet with the units that the words from `first` on name. By numbers, since a fault tells that of its word.
    pub(crate) fn off_sheet(&self, heap: Global, first: usize) -> Result<Vec<u8>, Flaw> {
        let mut sheet = [0u8; 255];
        for i in first..self.0.len() {
            let unit: u8 = self.number(i)?;
            let Some(k) = usize::from(unit).checked_sub(1) else {
                return Err(Flaw::At(i, Why::Number));
            };
            sheet[k] = 1;
        }
        Ok(sheet.to_vec(heap)?)
    }
}
