// Plays a log: reads lines from standard input and writes one answer for each to standard output.
#![tactic(auto)]

use lines::{Lines, parse};
use std::io;
use std::io::{BufReader, BufWriter, Read, Write};

fn main(rt: HostRuntime) -> io::Result<()> {
    let mut text: Vec<u8> = Vec::new(rt.alloc());
    let mut input = BufReader::new(rt.alloc(), rt.stdin())?;
    let _ = input.read_to_end(&mut text)?;
    let mut out = BufWriter::new(rt.alloc(), rt.stdout())?;
    let lines = Lines { text: &text };
    for line in lines {
        match parse(line) {
            Ok(_) => out.write_all(b"lawful\n")?,
            Err(fault) => writeln!(out, "{fault}")?,
        }
    }
    out.flush()
}
