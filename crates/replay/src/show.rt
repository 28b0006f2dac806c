// What answers are printed as.
ghost use Rattle.std.specs.Prelude.{◌<◌, ◌≤◌, length};
ghost use Rattle.std.specs.Str.{IsAscii};

use std::fmt;
use xoodyak::Rule;
use xoodyak::cyclist::{Mode, Phase};

// The digit of the low half.
fn digit(value: u8) -> u8
    ensures { result < 128 }
{
    match value % 16 {
        low @ 0..=9 => b'0' + low,
        low => b'a' + (low - 10),
    }
}

// Two digits for each byte, and zeros after them; a format's `{:02x}` for each takes several times the instructions.
fn digits(bytes: &[u8]) -> [u8; 128]
    requires { length bytes.now ≤ 64 }
    ensures { IsAscii result }
{
    let mut text = [b'0'; 128];
    for (i, b) in bytes.iter().enumerate() {
        text[2 * i] = digit(*b / 16);
        text[2 * i + 1] = digit(*b);
    }
    text
}

// Unchecked, since digits are ASCII: a check would have to answer for a text that is none.
fn write_digits<W: fmt::Write>(f: &mut fmt::Formatter<W>, bytes: &[u8]) -> fmt::Result
    requires { length bytes.now ≤ 64 }
{
    let text = digits(bytes);
    f.write_str(unsafe { str::from_utf8_unchecked(&text[..2 * bytes.len()]) })
}

// Bytes in hexadecimal, and a point for none.
#[derive(Clone, Copy)]
pub struct Hex<'a>(pub &'a [u8]);

impl fmt::Display for Hex<'_> {
    fn fmt<W: fmt::Write>(&self, f: &mut fmt::Formatter<W>) -> fmt::Result {
        if self.0.is_empty() {
            return write!(f, ".");
        }
        for part in self.0.chunks(64) {
            write_digits(f, part)?;
        }
        Ok(())
    }
}

// A call's number, with 3 how many bytes the output lacks.
#[derive(Clone, Copy)]
pub struct Number(pub u8, pub usize);

impl fmt::Display for Number {
    fn fmt<W: fmt::Write>(&self, f: &mut fmt::Formatter<W>) -> fmt::Result {
        let Number(number, missing) = self;
        match number {
            3 => write!(f, "3:{missing}"),
            _ => write!(f, "{number}"),
        }
    }
}

pub fn mode_name(mode: Mode) -> &'static str {
    match mode {
        Mode::Hash => "hash",
        Mode::Keyed => "keyed",
    }
}

pub fn phase_name(phase: Phase) -> &'static str {
    match phase {
        Phase::Up => "up",
        Phase::Down => "down",
    }
}

pub fn rule_name(rule: Rule) -> &'static str {
    match rule {
        Rule::Crate => "crate",
        Rule::Specification => "spec",
    }
}
