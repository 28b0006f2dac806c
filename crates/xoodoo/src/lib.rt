// Xoodoo: the permutation of 48 bytes with a count of rounds, its inverse, and the calls on its bytes.
#![tactic(auto)]

ghost use Rattle.std.specs.Prelude.{◌≡◌, replicate};
ghost use Rattle.xoodoo.specs.Xoodoo as xoodoo;
ghost use Rattle.xoodoo.specs.Calls.{number, add_byte_of, add_bytes_of, extract_bytes_of, rounds_of, unrounds_of};

mod complement;
mod frame;
mod plane;
pub mod round;
mod unround;
pub mod words;

use crate::round::rounds;
use crate::unround::unrounds;
use crate::words::{from_words, inverse_bytes, load, permute_bytes};

// The 48 bytes.
#[derive(Clone, Copy)]
pub struct Xoodoo {
    pub st: [u8; 48],
}

// A state, and 0, or the number of a refusal where the call was refused and the state is the one that was given. A number and no `Result`:
// by the rules of this project public calls refuse by a number beside the state.
#[derive(Clone, Copy)]
pub struct Answer {
    pub state: Xoodoo,
    pub number: u8,
}

// Why a call is refused, by the number that the caller gets.
#[derive(Clone, Copy)]
enum Refusal {
    OutOfBounds = 6,
    TooManyRounds = 11,
}

impl Refusal {
    fn number(self) -> u8
        ensures { result ≡ number self }
    {
        self as u8
    }
}

impl Answer {
    fn done(state: Xoodoo) -> Self
        ensures { result ≡ record { state = state; number = 0 } }
    {
        Self { state, number: 0 }
    }

    fn refused(state: Xoodoo, why: Refusal) -> Self
        ensures { result ≡ record { state = state; number = number why } }
    {
        Self {
            state,
            number: why.number(),
        }
    }
}

impl Xoodoo {
    // 48 zeros.
    pub fn default() -> Self
        ensures { result ≡ record { st = replicate 48 0 } }
    {
        Self { st: [0; 48] }
    }

    pub fn from_bytes(bytes: [u8; 48]) -> Self
        ensures { result ≡ record { st = bytes } }
    {
        Self { st: bytes }
    }

    pub fn bytes(self, out: &mut [u8; 48])
        ensures { out.new ≡ self.st }
    {
        out.copy_from_slice(&self.st);
    }

    pub fn add_byte(self, byte: u8, offset: usize) -> Answer
        ensures { result ≡ add_byte_of self byte offset }
    {
        if offset > 47 {
            return Answer::refused(self, Refusal::OutOfBounds);
        }
        let mut st = self.st;
        st[offset] ^= byte;
        Answer::done(Self { st })
    }

    pub fn add_bytes(self, bytes: &[u8]) -> Answer
        ensures { result ≡ add_bytes_of self bytes.now }
    {
        if bytes.len() > 48 {
            return Answer::refused(self, Refusal::OutOfBounds);
        }
        let mut st = self.st;
        for (i, byte) in bytes.iter().enumerate() {
            st[i] ^= *byte;
        }
        Answer::done(Self { st })
    }

    // A number, as in an `Answer`: the state stays.
    pub fn extract_bytes(self, out: &mut [u8]) -> u8
        ensures value { result ≡ (extract_bytes_of self out.old).number }
        ensures out_after { out.new ≡ (extract_bytes_of self out.old).bytes }
    {
        let n = out.len();
        if n > 48 {
            return Refusal::OutOfBounds.number();
        }
        out.copy_from_slice(&self.st[..n]);
        0
    }

    // The last n of the twelve rounds; 11 where n is above 12.
    pub fn rounds(self, n: usize) -> Answer
        ensures { result ≡ rounds_of self n }
    {
        if n > 12 {
            return Answer::refused(self, Refusal::TooManyRounds);
        }
        let st = from_words(rounds(n, load(&self.st)));
        Answer::done(Self { st })
    }

    // The last n of the twelve rounds taken back; 11 where n is above 12.
    // Like `rounds` but for one call: told which, one function for both would be a third, since both are public.
    pub fn unrounds(self, n: usize) -> Answer
        ensures { result ≡ unrounds_of self n }
    {
        if n > 12 {
            return Answer::refused(self, Refusal::TooManyRounds);
        }
        let st = from_words(unrounds(n, load(&self.st)));
        Answer::done(Self { st })
    }

    pub fn permute(mut self) -> Self
        ensures { result ≡ record { st = xoodoo.xoodoo self.st } }
    {
        permute_bytes(&mut self.st);
        self
    }

    pub fn inverse(mut self) -> Self
        ensures { result ≡ record { st = xoodoo.inverse self.st } }
    {
        inverse_bytes(&mut self.st);
        self
    }
}
