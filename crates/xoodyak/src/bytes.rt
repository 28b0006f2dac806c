// Runs of bytes in lent slices: added, copied, zeroed, compared, chosen.
ghost use Rattle.std.specs.Prelude.{◌≡◌, ◌≤◌, length, replicate};
ghost use Rattle.laws.specs.Lists.{add_front};
ghost use Rattle.xoodyak.specs.Cyclist.{given, chosen};
ghost use Rattle.xoodyak.specs.Calls.{same_bytes};

// Adds src to the front of dst. By index: tried with iter_mut().zip(), `returns` stayed open, since nothing is known of what an adapter lends.
pub(crate) fn xor_into(dst: &mut [u8], src: &[u8])
    requires { length src.now ≤ length dst.old }
    ensures { dst.new ≡ add_front dst.old src.now }
{
    for (i, s) in src.iter().enumerate() {
        dst[i] ^= *s;
    }
}

// All of dst becomes src. By index: of `copy_from_slice` the compiler forgets that the two lie apart, and asks a C library for `memmove`.
pub(crate) fn copy_into(dst: &mut [u8], src: &[u8])
    requires { length src.now ≡ length dst.old }
    ensures { dst.new ≡ src.now }
{
    for (i, s) in src.iter().enumerate() {
        dst[i] = *s;
    }
}

pub(crate) fn clear(buf: &mut [u8])
    ensures { buf.new ≡ replicate (length buf.old) 0 }
{
    buf.fill(0);
}

// Equal in each byte: the differences are folded, and none ends the loop early.
pub(crate) fn same_bytes(a: &[u8], b: &[u8]) -> bool
    requires { length a.now ≡ length b.now }
    ensures { result ≡ same_bytes a.now b.now }
{
    let mut acc = 0;
    for (x, y) in a.iter().zip(b) {
        acc |= *x ^ *y;
    }
    acc == 0
}

// An optional slice as public calls take it, with a flag: empty where the flag says absent.
pub fn or_empty<'a>(has: bool, x: &'a [u8]) -> &'a [u8]
    ensures { result.now ≡ given has x.now }
{
    if has { x } else { &x[..0] }
}

// The key id where one is given, the nonce otherwise. Two slices and a flag: by the rules of this project one of two lent slices is handed back.
pub fn choose<'a>(has_id: bool, id: &'a [u8], nonce: &'a [u8]) -> &'a [u8]
    ensures { result.now ≡ chosen has_id id.now nonce.now }
{
    if has_id { id } else { nonce }
}
