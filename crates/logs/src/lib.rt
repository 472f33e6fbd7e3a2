// Whole logs: every line of a text is put to a named book, and the answers are written one after the other.
#![tactic(auto)]

ghost use Rattle.std.specs.Prelude.{◌≡◌, ◌++◌, is_ok, if◌then◌else◌};
ghost use Rattle.plain_named.specs.Replies.{answer, after};
ghost use Rattle.named.specs.Views.{named_of, Agreed};
ghost use Rattle.logs.specs.Plays.{Outcome};

use lines::Lines;
use maps::Store;
use named::NamedBook;
use std::alloc::AllocError;

// Puts one line to the named book, and adds its answer to what is written.
fn add_answer<S: Store>(
    book: &mut NamedBook<S>,
    line: &[u8],
    out: &mut Vec<u8>,
) -> Result<(), AllocError>
    requires { Agreed S.Map.meaning book.old }
    ensures written { out.new.items ≡ (if is_ok result then out.old.items ++ answer S.Store.room (named_of S.Map.meaning book.old) line.now else out.old.items) }
    ensures left { named_of S.Map.meaning book.new ≡ after S.Store.room (named_of S.Map.meaning book.old) line.now }
    ensures agreed { Agreed S.Map.meaning book.new }
{
    let mut buffer = [0; 16];
    let n = book.line(line, &mut buffer).unwrap();
    out.extend_from_slice(&buffer[..n])
}

// Plays the log to the named book, and adds the answers to what is written. Only memory can be wanting.
#[tactic(auto, using(crate::proofs::Playing::begun, crate::proofs::Playing::more, crate::proofs::Playing::ended))]
pub fn play<S: Store>(
    book: &mut NamedBook<S>,
    log: &[u8],
    out: &mut Vec<u8>,
) -> Result<(), AllocError>
    requires { Agreed S.Map.meaning book.old }
    ensures outcome { Outcome S.Store.room (named_of S.Map.meaning book.old) log.now out.old.items result (named_of S.Map.meaning book.new) out.new.items }
    ensures agreed { Agreed S.Map.meaning book.new }
{
    let lines = Lines { text: log };
    for line in lines {
        add_answer(book, line, out)?;
    }
    Ok(())
}
