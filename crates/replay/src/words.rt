// The words of a line, read as numbers, bytes and names.
ghost use Rattle.std.specs.Prelude.{◌<◌, ◌≤◌, IfOk, IfSome, length};

use std::alloc::{AllocError, Global};
use std::io;
use xoodyak::Rule;
use xoodyak::cyclist::{Mode, Phase};
use xoodyak::feed::Kind;

pub const LONGEST: usize = 40000;

// The most bytes that a word may give, and the longest buffer.
const MOST: usize = 16384;

// Why a call has no answer: its line fits no form, or memory or the output failed.
#[derive(Drop)]
pub enum Fault {
    Bad,
    Failed(io::Error),
}

impl From<io::Error> for Fault {
    fn from(e: io::Error) -> Fault {
        Fault::Failed(e)
    }
}

impl From<AllocError> for Fault {
    fn from(e: AllocError) -> Fault {
        Fault::Failed(io::Error::from(e))
    }
}

// A digit's value, lowercase alone.
fn nibble(digit: u8) -> Option<u8>
    ensures { IfSome result (λ value. value < 16) }
{
    match digit {
        b'0'..=b'9' => Some(digit - b'0'),
        b'a'..=b'f' => Some(digit - b'a' + 10),
        _ => None,
    }
}

fn byte(digits: &[u8]) -> Option<u8> {
    let [high, low] = digits else {
        return None;
    };
    Some(nibble(*high)? * 16 + nibble(*low)?)
}

// Bytes in hexadecimal, and a point for none.
pub fn bytes(alloc: Global, word: &str) -> Result<Vec<u8>, Fault>
    ensures { IfOk result (λ bytes. length bytes.items ≤ 16384) }
{
    if word.is_empty() || word.len() > 2 * MOST {
        return Err(Fault::Bad);
    }
    if word == "." {
        return Ok(Vec::new(alloc));
    }
    word.as_bytes()
        .chunks(2)
        .map(|digits| byte(digits).ok_or(Fault::Bad))
        .try_collect(alloc)
}

// So many bytes exactly.
pub fn exactly<const N: usize>(alloc: Global, word: &str) -> Result<[u8; N], Fault> {
    let bytes = bytes(alloc, word)?;
    <[u8; N]>::try_from(bytes.as_slice()).map_err(|_| Fault::Bad)
}

// An argument that may be absent. An absent one may come with bytes, which the call is lent all the same.
#[derive(Drop)]
pub struct Argument {
    pub given: bool,
    pub bytes: Vec<u8>,
}

pub fn optional(alloc: Global, word: &str) -> Result<Argument, Fault>
    ensures { IfOk result (λ a. length a.bytes.items ≤ 16384) }
{
    match word.strip_prefix('-') {
        Some("") => Ok(Argument {
            given: false,
            bytes: Vec::new(alloc),
        }),
        Some(lent) => Ok(Argument {
            given: false,
            bytes: bytes(alloc, lent)?,
        }),
        None => Ok(Argument {
            given: true,
            bytes: bytes(alloc, word)?,
        }),
    }
}

// The arguments of a key call, whose second and third are a nonce and an identity in one order or the other.
#[derive(Drop)]
pub struct KeyWords {
    pub key: Vec<u8>,
    pub second: Argument,
    pub third: Argument,
    pub counter: Argument,
}

pub fn key_words(alloc: Global, words: &[&str]) -> Result<KeyWords, Fault>
    ensures key_in_bounds { IfOk result (λ w. length w.key.items ≤ 16384) }
    ensures second_in_bounds { IfOk result (λ w. length w.second.bytes.items ≤ 16384) }
    ensures third_in_bounds { IfOk result (λ w. length w.third.bytes.items ≤ 16384) }
    ensures counter_in_bounds { IfOk result (λ w. length w.counter.bytes.items ≤ 16384) }
{
    let [key, second, third, counter] = words else {
        return Err(Fault::Bad);
    };
    Ok(KeyWords {
        key: bytes(alloc, key)?,
        second: optional(alloc, second)?,
        third: optional(alloc, third)?,
        counter: optional(alloc, counter)?,
    })
}

// At most 20 digits, of a number below 2^64; `parse` alone would take a plus.
pub fn decimal(word: &str) -> Result<usize, Fault> {
    if word.len() > 20 || word.starts_with('+') {
        return Err(Fault::Bad);
    }
    word.parse::<usize>().map_err(|_| Fault::Bad)
}

// A buffer that the line gives by its length.
pub fn room(alloc: Global, word: &str) -> Result<Vec<u8>, Fault>
    ensures { IfOk result (λ buf. length buf.items ≤ 16384) }
{
    Ok(vec![in alloc; 0xa5; length(word)?]?)
}

// The length of a buffer.
pub fn length(word: &str) -> Result<usize, Fault>
    ensures { IfOk result (λ n. n ≤ 16384) }
{
    let n = decimal(word)?;
    if n > MOST {
        return Err(Fault::Bad);
    }
    Ok(n)
}

pub fn phase(word: &str) -> Result<Phase, Fault> {
    match word {
        "up" => Ok(Phase::Up),
        "down" => Ok(Phase::Down),
        _ => Err(Fault::Bad),
    }
}

pub fn mode(word: &str) -> Result<Mode, Fault> {
    match word {
        "hash" => Ok(Mode::Hash),
        "keyed" => Ok(Mode::Keyed),
        _ => Err(Fault::Bad),
    }
}

pub fn rule(word: &str) -> Result<Rule, Fault> {
    match word {
        "crate" => Ok(Rule::Crate),
        "spec" => Ok(Rule::Specification),
        _ => Err(Fault::Bad),
    }
}

pub fn kind(word: &str) -> Result<Kind, Fault> {
    match word {
        "seal" => Ok(Kind::Seal),
        "open" => Ok(Kind::Open),
        _ => Err(Fault::Bad),
    }
}
