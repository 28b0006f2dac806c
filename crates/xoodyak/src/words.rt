// A session's blocks as words: read from lent slices and written to them, and the steps of the loops on a state in words.
// What is promised of words is said of their bytes.
ghost use Rattle.std.specs.Prelude.{◌≡◌, ◌+◌, ◌≤◌, ◌<◌, length, take, drop};
ghost use Rattle.std.proofs.lemmas.List.Edits.{sets};
ghost use Rattle.laws.specs.Lists.{add_front, add_at};
ghost use Rattle.xoodoo.specs.Xoodoo.{word_bytes, plane_bytes, to_bytes, xoodoo};

use crate::bytes::xor_into;
use xoodoo::round::{Plane, State};
use xoodoo::words::{Block, Eleven, Six, from_words, permute_words, to_words};

// A block that lies in a lent slice of its size: a slice, since an array type cannot have the length `Self::SIZE`.
pub(crate) trait Lent: Block {
    fn get(b: &[u8]) -> Self
        requires { length b.now ≡ Self.SIZE }
        ensures { Self.bytes result ≡ b.now };

    fn put(self, b: &mut [u8])
        requires { length b.old ≡ Self.SIZE }
        ensures { b.new ≡ Self.bytes self };
}

fn get4(b: &[u8], at: usize) -> u32
    requires { at + 4 ≤ length b.now }
    ensures { word_bytes result ≡ take 4 (drop at b.now) }
{
    u32::from_le_bytes([b[at], b[at + 1], b[at + 2], b[at + 3]])
}

fn get16(b: &[u8], at: usize) -> Plane
    requires { at + 16 ≤ length b.now }
    ensures { plane_bytes result ≡ take 16 (drop at b.now) }
{
    Plane {
        x0: get4(b, at),
        x1: get4(b, at + 4),
        x2: get4(b, at + 8),
        x3: get4(b, at + 12),
    }
}

fn put4(b: &mut [u8], at: usize, w: u32)
    requires { at + 4 ≤ length b.old }
    ensures { b.new ≡ sets b.old at (word_bytes w) }
{
    b[at..at + 4].copy_from_slice(&w.to_le_bytes());
}

fn put16(b: &mut [u8], at: usize, p: Plane)
    requires { at + 16 ≤ length b.old }
    ensures { b.new ≡ sets b.old at (plane_bytes p) }
{
    put4(b, at, p.x0);
    put4(b, at + 4, p.x1);
    put4(b, at + 8, p.x2);
    put4(b, at + 12, p.x3);
}

impl Lent for Plane {
    fn get(b: &[u8]) -> Self {
        get16(b, 0)
    }

    fn put(self, b: &mut [u8]) {
        put16(b, 0, self);
    }
}

impl Lent for Six {
    fn get(b: &[u8]) -> Self {
        Six {
            x0: get4(b, 0),
            x1: get4(b, 4),
            x2: get4(b, 8),
            x3: get4(b, 12),
            x4: get4(b, 16),
            x5: get4(b, 20),
        }
    }

    fn put(self, b: &mut [u8]) {
        put4(b, 0, self.x0);
        put4(b, 4, self.x1);
        put4(b, 8, self.x2);
        put4(b, 12, self.x3);
        put4(b, 16, self.x4);
        put4(b, 20, self.x5);
    }
}

impl Lent for Eleven {
    fn get(b: &[u8]) -> Self {
        Eleven {
            p0: get16(b, 0),
            p1: get16(b, 16),
            x0: get4(b, 32),
            x1: get4(b, 36),
            x2: get4(b, 40),
        }
    }

    fn put(self, b: &mut [u8]) {
        put16(b, 0, self.p0);
        put16(b, 16, self.p1);
        put4(b, 32, self.x0);
        put4(b, 36, self.x1);
        put4(b, 40, self.x2);
    }
}

// ---- a full block, and the words after an Up
fn write_full<B: Lent>(v: State, out: &mut [u8])
    requires { length out.old ≡ B.SIZE }
    ensures { out.new ≡ take B.SIZE (to_bytes v) }
{
    B::front(v).put(out);
}

// Down(x, 00).
fn down_full<B: Lent>(v: State, x: &[u8]) -> State
    requires { length x.now ≡ B.SIZE }
    ensures { to_bytes result ≡ add_at (add_front (to_bytes v) x.now) B.SIZE 1 }
{
    B::pad(B::get(x).add(v))
}

// Encrypted where it lies: Down with what the block was.
fn encrypt_full<B: Lent>(v: State, buf: &mut [u8]) -> State
    requires { length buf.old ≡ B.SIZE }
    ensures result_value { to_bytes result ≡ add_at (add_front (to_bytes v) buf.old) B.SIZE 1 }
    ensures buf_after { buf.new ≡ add_front buf.old (to_bytes v) }
{
    let u = B::get(buf).add(v);
    B::front(u).put(buf);
    B::pad(u)
}

// Decrypted where it lies: Down with what the block becomes.
pub(crate) fn decrypt_full<B: Lent>(v: State, buf: &mut [u8]) -> State
    requires { length buf.old ≡ B.SIZE }
    ensures result_value { to_bytes result ≡ add_at (add_front (to_bytes v) (add_front buf.old (to_bytes v))) B.SIZE 1 }
    ensures buf_after { buf.new ≡ add_front buf.old (to_bytes v) }
{
    let m = B::front(B::get(buf).add(v));
    m.put(buf);
    B::pad(m.add(v))
}

// ---- a block of any length
// The state's first bytes, as many as out has.
pub(crate) fn write_front(v: State, out: &mut [u8])
    requires { length out.old ≤ 48 }
    ensures { out.new ≡ take (length out.old) (to_bytes v) }
{
    match out.len() {
        Six::SIZE => write_full::<Six>(v, out),
        Plane::SIZE => write_full::<Plane>(v, out),
        n => out.copy_from_slice(&from_words(v)[..n]),
    }
}

// Down(x, 00).
pub(crate) fn down_words(v: State, x: &[u8]) -> State
    requires { length x.now < 48 }
    ensures { to_bytes result ≡ add_at (add_front (to_bytes v) x.now) (length x.now) 1 }
{
    match x.len() {
        Eleven::SIZE => down_full::<Eleven>(v, x),
        Plane::SIZE => down_full::<Plane>(v, x),
        n => {
            let mut st = from_words(v);
            xor_into(&mut st, x);
            st[n] ^= 1;
            to_words(&st)
        }
    }
}

// One block absorbed: Up and Down with 00. The full blocks are taken here too, where the loop has their words at hand.
pub(crate) fn absorb_block(w: State, x: &[u8]) -> State
    requires { length x.now < 48 }
    ensures { to_bytes result ≡ add_at (add_front (xoodoo (to_bytes w)) x.now) (length x.now) 1 }
{
    match x.len() {
        Eleven::SIZE => down_full::<Eleven>(permute_words(w), x),
        Plane::SIZE => down_full::<Plane>(permute_words(w), x),
        _ => down_words(permute_words(w), x),
    }
}

// Down(empty, 00) and Up with 00.
pub(crate) fn next_words(v: State) -> State
    ensures { to_bytes result ≡ xoodoo (add_at (to_bytes v) 0 1) }
{
    let one = Plane {
        x0: 1,
        x1: 0,
        x2: 0,
        x3: 0,
    };
    permute_words(one.add(v))
}

// One block, encrypted where it lies: Up with 00, and Down with what the block was. Lengths are told apart after the permutation:
// before it, the compiler would load its words four at a time, which waits for their stores.
pub(crate) fn encrypt_block(w: State, buf: &mut [u8]) -> State
    requires { length buf.old ≤ 24 }
    ensures result_value { to_bytes result ≡ add_at (add_front (xoodoo (to_bytes w)) buf.old) (length buf.old) 1 }
    ensures buf_after { buf.new ≡ add_front buf.old (xoodoo (to_bytes w)) }
{
    let v = permute_words(w);
    match buf.len() {
        Six::SIZE => encrypt_full::<Six>(v, buf),
        Plane::SIZE => encrypt_full::<Plane>(v, buf),
        n => {
            let after = down_words(v, buf);
            xor_into(buf, &from_words(v)[..n]);
            after
        }
    }
}

// The same the other way, for a block that is not full: Down with what the block becomes.
pub(crate) fn decrypt_block(w: State, buf: &mut [u8]) -> State
    requires { length buf.old ≤ 24 }
    ensures result_value { to_bytes result ≡ add_at (add_front (xoodoo (to_bytes w)) (add_front buf.old (xoodoo (to_bytes w)))) (length buf.old) 1 }
    ensures buf_after { buf.new ≡ add_front buf.old (xoodoo (to_bytes w)) }
{
    let v = permute_words(w);
    match buf.len() {
        Plane::SIZE => decrypt_full::<Plane>(v, buf),
        n => {
            xor_into(buf, &from_words(v)[..n]);
            down_words(v, buf)
        }
    }
}
