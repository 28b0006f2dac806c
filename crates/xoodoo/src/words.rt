// 48 bytes as twelve little-endian words and back, and what is done to the words for a loop that stays in them.
// What is promised of them is said of their bytes.
ghost use Rattle.std.specs.Prelude.{◌≡◌, List, ℕ, ◌+◌, ◌<◌, ◌≤◌, take};
ghost use Rattle.std.proofs.lemmas.List.Edits.{sets};
ghost use Rattle.std.proofs.Common.{rules};
ghost use Rattle.laws.specs.Lists.{add_front, add_at};
ghost use Rattle.xoodoo.specs.Xoodoo.{word_at, plane_at, from_bytes, word_bytes, plane_bytes, to_bytes, xoodoo, inverse};
ghost use Rattle.xoodoo.specs.Words.{six_bytes, eleven_bytes};

use crate::frame::twelve_rounds;
use crate::round::{Plane, State};
use crate::unround::twelve_unrounds;

// A block of whole words, as it lies at the front of a state.
pub trait Block: Copy {
    // How many bytes.
    const SIZE: usize;

    ghost SIZE: { ℕ };

    // Which.
    ghost bytes: { Self → List ℕ };

    // The state's first bytes.
    fn front(s: State) -> Self
        ensures { bytes result ≡ take SIZE (to_bytes s) };

    // The block is added at byte 0.
    fn add(self, s: State) -> State
        ensures { to_bytes result ≡ add_front (to_bytes s) (bytes self) };

    // 1 is added after a block.
    fn pad(s: State) -> State
        ensures { to_bytes result ≡ add_at (to_bytes s) SIZE 1 };

    ghost fits: { SIZE < 48 };
}

// The words of a block of 24 bytes; a plane has those of 16.
#[derive(Clone, Copy)]
pub struct Six {
    pub x0: u32,
    pub x1: u32,
    pub x2: u32,
    pub x3: u32,
    pub x4: u32,
    pub x5: u32,
}

// The words of a block of 44 bytes.
#[derive(Clone, Copy)]
pub struct Eleven {
    pub p0: Plane,
    pub p1: Plane,
    pub x0: u32,
    pub x1: u32,
    pub x2: u32,
}

fn word_at(b: &[u8; 48], at: usize) -> u32
    requires { at + 4 ≤ 48 }
    ensures { result ≡ word_at b.now at }
{
    u32::from_le_bytes([b[at], b[at + 1], b[at + 2], b[at + 3]])
}

fn plane_at(b: &[u8; 48], at: usize) -> Plane
    requires { at + 16 ≤ 48 }
    ensures { result ≡ plane_at b.now at }
{
    Plane {
        x0: word_at(b, at),
        x1: word_at(b, at + 4),
        x2: word_at(b, at + 8),
        x3: word_at(b, at + 12),
    }
}

pub(crate) fn load(b: &[u8; 48]) -> State
    ensures { result ≡ from_bytes b.now }
{
    State {
        p0: plane_at(b, 0),
        p1: plane_at(b, 16),
        p2: plane_at(b, 32),
    }
}

pub fn to_words(b: &[u8; 48]) -> State
    ensures { to_bytes result ≡ b.now }
{
    load(b)
}

fn put_word(b: &mut [u8; 48], at: usize, w: u32)
    requires { at + 4 ≤ 48 }
    ensures { b.new ≡ sets b.old at (word_bytes w) }
{
    b[at..at + 4].copy_from_slice(&w.to_le_bytes());
}

fn put_plane(b: &mut [u8; 48], at: usize, p: Plane)
    requires { at + 16 ≤ 48 }
    ensures { b.new ≡ sets b.old at (plane_bytes p) }
{
    put_word(b, at, p.x0);
    put_word(b, at + 4, p.x1);
    put_word(b, at + 8, p.x2);
    put_word(b, at + 12, p.x3);
}

fn put_state(b: &mut [u8; 48], s: State)
    ensures { b.new ≡ to_bytes s }
{
    put_plane(b, 0, s.p0);
    put_plane(b, 16, s.p1);
    put_plane(b, 32, s.p2);
}

pub fn from_words(s: State) -> [u8; 48]
    ensures { result ≡ to_bytes s }
{
    let mut b = [0u8; 48];
    put_state(&mut b, s);
    b
}

// Where the bytes lie: each word is put back where it was read, and no copy is made.
pub fn permute_bytes(st: &mut [u8; 48])
    ensures { st.new ≡ xoodoo st.old }
{
    put_state(st, twelve_rounds(load(st)));
}

// Alike, where the bytes lie; one function for both, told which rounds, would be a third, since both are public and of one line.
pub fn inverse_bytes(st: &mut [u8; 48])
    ensures { st.new ≡ inverse st.old }
{
    put_state(st, twelve_unrounds(load(st)));
}

// By way of the bytes, so that the rounds stand at one place in a program.
pub fn permute_words(s: State) -> State
    ensures { to_bytes result ≡ xoodoo (to_bytes s) }
{
    let mut b = from_words(s);
    permute_bytes(&mut b);
    load(&b)
}

impl Block for Plane {
    const SIZE: usize = 16;

    ghost SIZE = { 16 };

    ghost bytes = { plane_bytes };

    ghost fits = { Prim.search rules };

    fn front(s: State) -> Self {
        s.p0
    }

    fn add(self, s: State) -> State {
        State {
            p0: s.p0 ^ self,
            ..s
        }
    }

    fn pad(s: State) -> State {
        State {
            p1: Plane {
                x0: s.p1.x0 ^ 1,
                ..s.p1
            },
            ..s
        }
    }
}

impl Block for Six {
    const SIZE: usize = 24;

    ghost SIZE = { 24 };

    ghost bytes = { six_bytes };

    ghost fits = { Prim.search rules };

    fn front(s: State) -> Self {
        Six {
            x0: s.p0.x0,
            x1: s.p0.x1,
            x2: s.p0.x2,
            x3: s.p0.x3,
            x4: s.p1.x0,
            x5: s.p1.x1,
        }
    }

    fn add(self, s: State) -> State {
        State {
            p0: Plane {
                x0: s.p0.x0 ^ self.x0,
                x1: s.p0.x1 ^ self.x1,
                x2: s.p0.x2 ^ self.x2,
                x3: s.p0.x3 ^ self.x3,
            },
            p1: Plane {
                x0: s.p1.x0 ^ self.x4,
                x1: s.p1.x1 ^ self.x5,
                ..s.p1
            },
            ..s
        }
    }

    fn pad(s: State) -> State {
        State {
            p1: Plane {
                x2: s.p1.x2 ^ 1,
                ..s.p1
            },
            ..s
        }
    }
}

impl Block for Eleven {
    const SIZE: usize = 44;

    ghost SIZE = { 44 };

    ghost bytes = { eleven_bytes };

    ghost fits = { Prim.search rules };

    fn front(s: State) -> Self {
        Eleven {
            p0: s.p0,
            p1: s.p1,
            x0: s.p2.x0,
            x1: s.p2.x1,
            x2: s.p2.x2,
        }
    }

    fn add(self, s: State) -> State {
        State {
            p0: s.p0 ^ self.p0,
            p1: s.p1 ^ self.p1,
            p2: Plane {
                x0: s.p2.x0 ^ self.x0,
                x1: s.p2.x1 ^ self.x1,
                x2: s.p2.x2 ^ self.x2,
                ..s.p2
            },
        }
    }

    fn pad(s: State) -> State {
        State {
            p2: Plane {
                x3: s.p2.x3 ^ 1,
                ..s.p2
            },
            ..s
        }
    }
}

// The colour is added to the last byte.
pub fn colour(s: State, cu: u8) -> State
    ensures { to_bytes result ≡ add_at (to_bytes s) 47 cu }
{
    State {
        p2: Plane {
            x3: s.p2.x3 ^ ((cu as u32) * 0x1000000),
            ..s.p2
        },
        ..s
    }
}
