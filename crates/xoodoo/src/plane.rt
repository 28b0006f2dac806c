// What is done to a plane: to each of its words, as Rust's operators do it to one, and to its columns.
ghost use Rattle.std.specs.Prelude.{◌≡◌, ◌<◌};
ghost use Rattle.std.specs.Int.Bits.{bit_or};
ghost use Rattle.laws.specs.Words.{◌⊙◌, not32, rotl};
ghost use Rattle.xoodoo.specs.Xoodoo as xoodoo;
ghost use Rattle.xoodoo.specs.Xoodoo.{each, ◌⊞◌};
ghost use Rattle.xoodoo.specs.Frame.{both};

use crate::round::Plane;
use std::ops::{BitAnd, BitOr, BitXor, Not};

impl Plane {
    // f of each word.
    fn map<F: Fn(u32) -> u32>(self, f: F) -> Self
        requires { F.IsAlwaysCallable f }
        ensures { F.post f self.x0 result.x0 × F.post f self.x1 result.x1 × F.post f self.x2 result.x2 × F.post f self.x3 result.x3 }
    {
        Self {
            x0: f(self.x0),
            x1: f(self.x1),
            x2: f(self.x2),
            x3: f(self.x3),
        }
    }

    // f of each word and the other plane's in its column.
    fn zip<F: Fn(u32, u32) -> u32>(self, other: Self, f: F) -> Self
        requires { F.IsAlwaysCallable f }
        ensures { F.post f self.x0 other.x0 result.x0 × F.post f self.x1 other.x1 result.x1 × F.post f self.x2 other.x2 result.x2 × F.post f self.x3 other.x3 result.x3 }
    {
        Self {
            x0: f(self.x0, other.x0),
            x1: f(self.x1, other.x1),
            x2: f(self.x2, other.x2),
            x3: f(self.x3, other.x3),
        }
    }

    // Each word rotated to the left by k.
    pub(crate) fn rotate_left(self, k: u32) -> Self
        requires { (0 < k) × (k < 32) }
        ensures { result ≡ each (rotl k) self }
    {
        self.map(|w| w.rotate_left(k))
    }

    // One column up.
    pub(crate) fn up(self) -> Self
        ensures { result ≡ xoodoo.up self }
    {
        Self {
            x0: self.x3,
            x1: self.x0,
            x2: self.x1,
            x3: self.x2,
        }
    }
}

impl Not for Plane {
    type Output = Self;

    ghost not_gives = { λ p q. q ≡ each not32 p };

    fn not(self) -> Self {
        self.map(|w| !w)
    }
}

impl BitAnd for Plane {
    type Output = Self;

    ghost bitand_gives = { λ p q r. r ≡ both ◌⊙◌ p q };

    fn bitand(self, other: Self) -> Self {
        self.zip(other, |v, w| v & w)
    }
}

impl BitOr for Plane {
    type Output = Self;

    ghost bitor_gives = { λ p q r. r ≡ both bit_or p q };

    fn bitor(self, other: Self) -> Self {
        self.zip(other, |v, w| v | w)
    }
}

impl BitXor for Plane {
    type Output = Self;

    ghost bitxor_gives = { λ p q r. r ≡ p ⊞ q };

    fn bitxor(self, other: Self) -> Self {
        self.zip(other, |v, w| v ^ w)
    }
}
