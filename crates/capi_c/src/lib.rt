// The static library for C and Rust: each exported call is the one of that name in crates/capi, with its promise. Here are those of the permutation.
// Each is written out, since the C interface wants a function of its own for each name.
#![tactic(auto)]

mod aead;
mod back;
mod feed;
mod hash;
mod keyed;

ghost use Rattle.std.specs.Prelude.{◌≡◌};
ghost use Rattle.xoodoo.specs.Xoodoo as x;
ghost use Rattle.xoodoo.specs.Calls.{add_byte_of, add_bytes_of, extract_bytes_of, rounds_of, unrounds_of};

#[unsafe(no_mangle)]
pub extern "C" fn lafomeihu_xoodoo_permute(st: &mut [u8; 48])
    ensures { st.new ≡ x.xoodoo st.old }
{
    capi::lafomeihu_xoodoo_permute(st);
}

#[unsafe(no_mangle)]
pub extern "C" fn lafomeihu_xoodoo_inverse(st: &mut [u8; 48])
    ensures { st.new ≡ x.inverse st.old }
{
    capi::lafomeihu_xoodoo_inverse(st);
}

#[unsafe(no_mangle)]
pub extern "C" fn lafomeihu_xoodoo_rounds(st: &mut [u8; 48], n: usize) -> u8
    ensures { let x = rounds_of (record { st = st.old }) n in (result ≡ x.number) × (st.new ≡ x.state.st) }
{
    capi::lafomeihu_xoodoo_rounds(st, n)
}

#[unsafe(no_mangle)]
pub extern "C" fn lafomeihu_xoodoo_unrounds(st: &mut [u8; 48], n: usize) -> u8
    ensures { let x = unrounds_of (record { st = st.old }) n in (result ≡ x.number) × (st.new ≡ x.state.st) }
{
    capi::lafomeihu_xoodoo_unrounds(st, n)
}

#[unsafe(no_mangle)]
pub extern "C" fn lafomeihu_xoodoo_add_byte(st: &mut [u8; 48], byte: u8, offset: usize) -> u8
    ensures { let x = add_byte_of (record { st = st.old }) byte offset in (result ≡ x.number) × (st.new ≡ x.state.st) }
{
    capi::lafomeihu_xoodoo_add_byte(st, byte, offset)
}

#[unsafe(no_mangle)]
pub extern "C" fn lafomeihu_xoodoo_add_bytes(st: &mut [u8; 48], bin: &[u8]) -> u8
    ensures { let x = add_bytes_of (record { st = st.old }) bin.now in (result ≡ x.number) × (st.new ≡ x.state.st) }
{
    capi::lafomeihu_xoodoo_add_bytes(st, bin)
}

#[unsafe(no_mangle)]
pub extern "C" fn lafomeihu_xoodoo_extract_bytes(st: &[u8; 48], out: &mut [u8]) -> u8
    ensures { let x = extract_bytes_of (record { st = st.now }) out.old in (result ≡ x.number) × (out.new ≡ x.bytes) }
{
    capi::lafomeihu_xoodoo_extract_bytes(st, out)
}
