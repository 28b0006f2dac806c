// Keyed sessions: the key call, ratchet, encryption and decryption.
// What is optional is a flag and a slice, as in the core's calls.
ghost use Rattle.std.specs.Prelude.{◌≡◌};
ghost use Rattle.xoodyak.specs.Calls.{key_of, ratchet_of, encrypt_of, decrypt_of, encrypt_in_place_of, decrypt_in_place_of};
ghost use Rattle.face.specs.Face.{reply_of};

use crate::Reply;
use xoodyak::Session;

pub fn absorb_key_and_nonce<'a>(
    s: &mut Session,
    key: &[u8],
    has_id: bool,
    id: &'a [u8],
    has_nonce: bool,
    nonce: &'a [u8],
    has_counter: bool,
    counter: &[u8],
) -> Reply
    ensures { (result ≡ reply_of (key_of s.old key.now has_id id.now has_nonce nonce.now has_counter counter.now)) × (s.new ≡ (key_of s.old key.now has_id id.now has_nonce nonce.now has_counter counter.now).session) }
{
    Reply::stored(
        s.absorb_key_and_nonce(key, has_id, id, has_nonce, nonce, has_counter, counter),
        s,
    )
}

pub fn ratchet(s: &mut Session) -> Reply
    ensures { (result ≡ reply_of (ratchet_of s.old)) × (s.new ≡ (ratchet_of s.old).session) }
{
    Reply::stored(s.ratchet(), s)
}

pub fn encrypt(s: &mut Session, out: &mut [u8], bin: &[u8]) -> Reply
    ensures { (result ≡ reply_of (encrypt_of s.old out.old bin.now)) × ((s.new ≡ (encrypt_of s.old out.old bin.now).session) × (out.new ≡ (encrypt_of s.old out.old bin.now).bytes)) }
{
    Reply::stored(s.encrypt(out, bin), s)
}

pub fn decrypt(s: &mut Session, out: &mut [u8], bin: &[u8]) -> Reply
    ensures { (result ≡ reply_of (decrypt_of s.old out.old bin.now)) × ((s.new ≡ (decrypt_of s.old out.old bin.now).session) × (out.new ≡ (decrypt_of s.old out.old bin.now).bytes)) }
{
    Reply::stored(s.decrypt(out, bin), s)
}

pub fn encrypt_in_place(s: &mut Session, in_out: &mut [u8]) -> Reply
    ensures { (result ≡ reply_of (encrypt_in_place_of s.old in_out.old)) × ((s.new ≡ (encrypt_in_place_of s.old in_out.old).session) × (in_out.new ≡ (encrypt_in_place_of s.old in_out.old).bytes)) }
{
    Reply::stored(s.encrypt_in_place(in_out), s)
}

pub fn decrypt_in_place(s: &mut Session, in_out: &mut [u8]) -> Reply
    ensures { (result ≡ reply_of (decrypt_in_place_of s.old in_out.old)) × ((s.new ≡ (decrypt_in_place_of s.old in_out.old).session) × (in_out.new ≡ (decrypt_in_place_of s.old in_out.old).bytes)) }
{
    Reply::stored(s.decrypt_in_place(in_out), s)
}
