// Plays a log over the grid: reads lines from standard input and writes one answer for each to standard output.
#![tactic(auto)]

use grid::Grid;
use logs::play;
use named::NamedBook;
use std::io;
use std::io::{BufReader, BufWriter, Read, Write};

fn main(rt: HostRuntime) -> io::Result<()> {
    let mut log: Vec<u8> = Vec::new(rt.alloc());
    let mut input = BufReader::new(rt.alloc(), rt.stdin())?;
    let _ = input.read_to_end(&mut log)?;
    let mut book = NamedBook::make(Grid::new());
    let mut answers = Vec::new(rt.alloc());
    let played = play(&mut book, log.as_slice(), &mut answers);
    let mut out = BufWriter::new(rt.alloc(), rt.stdout())?;
    out.write_all(answers.as_slice())?;
    out.flush()?;
    played?;
    Ok(())
}
