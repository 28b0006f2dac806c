// The port for C and Rust: calls over the caller's memory, which crates/capi_c exports under the same names. Here are those of the permutation.
// Numbers, kinds and flags are bytes: the C interface.
#![tactic(auto)]

pub mod aead;
pub mod back;
mod code;
pub mod feed;
pub mod hash;
pub mod keyed;
mod session;

ghost use Rattle.std.specs.Prelude.{◌≡◌};
ghost use Rattle.xoodoo.specs.Xoodoo as x;
ghost use Rattle.xoodoo.specs.Calls.{add_byte_of, add_bytes_of, extract_bytes_of, rounds_of, unrounds_of};

use xoodoo::words::{inverse_bytes, permute_bytes};
use xoodoo::{Answer, Xoodoo};

// Stores an answer's state; its number is left to answer.
fn store(a: Answer, st: &mut [u8; 48]) -> u8
    ensures { (result ≡ a.number) × (st.new ≡ a.state.st) }
{
    a.state.bytes(st);
    a.number
}

pub fn lafomeihu_xoodoo_permute(st: &mut [u8; 48])
    ensures { st.new ≡ x.xoodoo st.old }
{
    permute_bytes(st);
}

pub fn lafomeihu_xoodoo_inverse(st: &mut [u8; 48])
    ensures { st.new ≡ x.inverse st.old }
{
    inverse_bytes(st);
}

pub fn lafomeihu_xoodoo_rounds(st: &mut [u8; 48], n: usize) -> u8
    ensures { let x = rounds_of (record { st = st.old }) n in (result ≡ x.number) × (st.new ≡ x.state.st) }
{
    store(Xoodoo::from_bytes(*st).rounds(n), st)
}

pub fn lafomeihu_xoodoo_unrounds(st: &mut [u8; 48], n: usize) -> u8
    ensures { let x = unrounds_of (record { st = st.old }) n in (result ≡ x.number) × (st.new ≡ x.state.st) }
{
    store(Xoodoo::from_bytes(*st).unrounds(n), st)
}

pub fn lafomeihu_xoodoo_add_byte(st: &mut [u8; 48], byte: u8, offset: usize) -> u8
    ensures { let x = add_byte_of (record { st = st.old }) byte offset in (result ≡ x.number) × (st.new ≡ x.state.st) }
{
    store(Xoodoo::from_bytes(*st).add_byte(byte, offset), st)
}

pub fn lafomeihu_xoodoo_add_bytes(st: &mut [u8; 48], bin: &[u8]) -> u8
    ensures { let x = add_bytes_of (record { st = st.old }) bin.now in (result ≡ x.number) × (st.new ≡ x.state.st) }
{
    store(Xoodoo::from_bytes(*st).add_bytes(bin), st)
}

pub fn lafomeihu_xoodoo_extract_bytes(st: &[u8; 48], out: &mut [u8]) -> u8
    ensures { let x = extract_bytes_of (record { st = st.now }) out.old in (result ≡ x.number) × (out.new ≡ x.bytes) }
{
    Xoodoo::from_bytes(*st).extract_bytes(out)
}
