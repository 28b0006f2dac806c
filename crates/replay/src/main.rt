// Answers a transcript: reads calls on standard input, one to a line, and writes one answer for each.
#![tactic(auto)]

mod aead_lines;
mod back_lines;
mod buffer_lines;
mod feed_lines;
mod out;
mod runner;
mod session_lines;
mod show;
mod words;
mod xoodoo_lines;

use out::Out;
use runner::Runner;
use std::io;
use std::io::{BufReader, Read};
use words::LONGEST;

fn main(rt: HostRuntime) -> io::Result<()> {
    let alloc = rt.alloc();
    let mut runner = Runner::new(alloc, Out::new(io::writer(&rt)));
    let mut line = Vec::with_capacity(alloc, LONGEST + 1)?;
    for b in BufReader::new(alloc, rt.reader())?.bytes() {
        match b? {
            b'\n' => {
                runner.answer(line.as_slice())?;
                line.clear();
            }
            // One byte more than the longest line shows that a line is too long.
            b => {
                if line.len() <= LONGEST {
                    line.push(b)?;
                }
            }
        }
    }
    runner.answer(line.as_slice())?;
    runner.flush()
}
