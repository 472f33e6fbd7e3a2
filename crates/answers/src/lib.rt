// The answers to lines: what is told of a line that is obeyed, why one is refused, and the text of each.
#![tactic(auto)]

ghost use Rattle.std.specs.Prelude.{◌≡◌, ◌≤◌, ◌++◌, length, drop};
ghost use Rattle.answers.specs.Texts.{told_text, refusal_text, text as answer-text, Near};

mod fault;

use arrayvec::ArrayString;
pub use fault::{LineFault, Refusal};
use itoa::Buffer;

// What is told of a line that is obeyed.
#[derive(Clone, Copy, PartialEq, Eq, Debug)]
pub enum Told {
    // how many labels a change altered
    Changed(u32),
    // whether the one unit hears the other
    Heard(bool),
}

// Parts are pushed one after the other: `write!` may fail, as its contract has it, and no answer does.
impl Told {
    fn text(self) -> ArrayString<16>
        ensures { result.bytes ≡ told_text self }
    {
        let mut text = ArrayString::new();
        match self {
            Told::Changed(labels) => {
                let mut digits = Buffer::new();
                text.push_str("ok ");
                text.push_str(digits.format(labels));
                text.push_str("\n");
            }
            Told::Heard(true) => text.push_str("yes\n"),
            Told::Heard(false) => text.push_str("no\n"),
        }
        text
    }
}

impl Refusal {
    #[tactic(auto, using(crate::proofs::Short::two_digits, crate::proofs::Short::number_short, crate::proofs::Short::letter_ascii))]
    fn text(self) -> ArrayString<16>
        requires { self.place ≤ 36 }
        ensures { result.bytes ≡ refusal_text self }
    {
        let mut digits = Buffer::new();
        let mut text = ArrayString::new();
        text.push_str("refused ");
        text.push_str(digits.format(self.fault.number()));
        text.push_str(" ");
        text.push(char::from(self.fault.letter()));
        text.push_str(" ");
        text.push_str(digits.format(self.place));
        text.push_str("\n");
        text
    }
}

// Writes the text of an answer from the buffer's start, and tells its length. No text is longer than 16 bytes.
#[tactic(auto, unfolding(crate::specs::Texts::text))]
pub fn write_answer(answer: Result<Told, Refusal>, buffer: &mut [u8]) -> usize
    requires room { 16 ≤ length buffer.old }
    requires near { Near answer }
    ensures len { result ≡ length (answer-text answer) }
    ensures short { result ≤ 16 }
    ensures buffer { buffer.new ≡ answer-text answer ++ drop (length (answer-text answer)) buffer.old }
{
    let text = match answer {
        Ok(told) => told.text(),
        Err(refusal) => refusal.text(),
    };
    let bytes = text.as_str().as_bytes();
    buffer[..bytes.len()].copy_from_slice(bytes);
    bytes.len()
}
