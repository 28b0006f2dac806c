// The parts of a key call.
ghost use Rattle.std.specs.Prelude.{◌+◌, ◌≤◌, length};
ghost use Rattle.xoodyak.specs.Cyclist.{bytes_in};

// What a key call absorbs: the key and t, which is the key id where one is given and the nonce otherwise; then the nonce where
// it stands beside a key id, and the counter. Written as a literal where the lengths were checked.
#[derive(Clone, Copy)]
pub struct KeyParts<'a> {
    pub key: &'a [u8],
    pub t: &'a [u8],
    pub nonce: Option<&'a [u8]>,
    pub counter: Option<&'a [u8]>,
    pub ghost fits: { length key.now + 1 + length t.now + length (bytes_in nonce) ≤ 44 },
}
