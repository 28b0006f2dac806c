// Keyed sessions: the key call, ratchet, encryption and decryption.
ghost use Rattle.std.specs.Prelude.{◌≡◌, [], ◌∷◌, ◌++◌, ◌+◌, ◌<◌, ◌≤◌, length, take};
ghost use Rattle.laws.specs.Blocks.{cuts};
ghost use Rattle.xoodyak.specs.Cyclist.{up, down, absorb, absorb_given, ratchet, empty_block, enc_end, enc_out, dec_end, dec_out};
ghost use Rattle.xoodyak.specs.Calls.{answer_of, key_of, new_of, ratchet_of, encrypt_of, decrypt_of, encrypt_in_place_of, decrypt_in_place_of, crypt_end, crypt_out, crypt_of, crypt_in_place_of};

use crate::bytes::{choose, copy_into, or_empty};
use crate::cyclist::{Duplex, Mode};
use crate::feed::Kind;
use crate::key::KeyParts;
use crate::numbers::key_lengths;
use crate::words::{decrypt_block, decrypt_full, encrypt_block};
use crate::{Answer, Rule, Session};
use xoodoo::words::{Six, permute_words};

// Key, t and the length of t, at the front of 44 bytes; how many. An array and a count, since there is no heap.
fn write_iv(iv: &mut [u8], key: &[u8], t: &[u8]) -> usize
    requires { (length key.now + 1 + length t.now ≤ 44) × (length iv.old ≡ 44) }
    ensures { (result ≡ length key.now + 1 + length t.now) × (take result iv.new ≡ key.now ++ (t.now ++ (length t.now ∷ []))) }
{
    let k = key.len();
    let e = k + t.len();
    iv[..k].copy_from_slice(key);
    iv[k..e].copy_from_slice(t);
    iv[e] = t.len() as u8;
    e + 1
}

impl Duplex {
    // Absorbs an optional slice, in the key call's own code.
    #[inline(always)]
    fn absorb_given(self, rate: usize, x: Option<&[u8]>) -> Self
        requires { (0 < rate) × (rate ≤ 44) }
        ensures { result ≡ absorb_given rate self x.entry }
    {
        match x {
            Some(x) => self.absorb_any(x, rate, 0),
            None => self,
        }
    }

    // The key call. In its two callers' own code, since called it takes a third more instructions for a short key.
    #[inline(always)]
    pub(crate) fn key_call(self, parts: KeyParts) -> Self
        ensures { result ≡ absorb_given 1 (absorb_given 44 (absorb 44 2 self (parts.entry.key.now ++ (parts.entry.t.now ++ (length parts.entry.t.now ∷ [])))) parts.entry.nonce) parts.entry.counter }
    {
        let mut iv = [0u8; 44];
        let n = write_iv(&mut iv, parts.key, parts.t);
        self.absorb_any(&iv[..n], 44, 0x02)
            .absorb_given(44, parts.nonce)
            .absorb_given(1, parts.counter)
    }

    pub(crate) fn ratchet(self) -> Duplex
        ensures { result ≡ ratchet self }
    {
        let mut rolled = [0u8; 16];
        let d = self.squeeze_any(&mut rolled, 0x10);
        d.absorb_any(&rolled, 16, 0)
    }

    // The one block of an empty message under the specification's rule: Up(0, 80), Down(empty, 00).
    pub(crate) fn empty_block(self) -> Duplex
        ensures { result ≡ down (up self 0x80) [] 0 }
    {
        self.up(0x80).down(b"", 0)
    }

    pub(crate) fn encrypt_blocks(self, buf: &mut [u8]) -> Self
        ensures value { result ≡ enc_end (cuts 24 buf.old) 0x80 self }
        ensures buf_after { buf.new ≡ enc_out (cuts 24 buf.old) 0x80 self }
    {
        let n = buf.len();
        if n == 0 {
            return self;
        }
        // 80 is added once, before the loop, and every block's Up has 00
        let mut v = self.coloured(0x80);
        // by index, as in squeeze_words of cyclist.rt; not one loop with decrypt_blocks, which is quicker with full blocks by themselves
        let mut i = 0;
        while i < n {
            let e = i + (n - i).min(24);
            v = encrypt_block(v, &mut buf[i..e]);
            i = e;
        }
        Duplex::after_down(v, self.mode)
    }

    pub(crate) fn decrypt_blocks(self, buf: &mut [u8]) -> Self
        ensures value { result ≡ dec_end (cuts 24 buf.old) 0x80 self }
        ensures buf_after { buf.new ≡ dec_out (cuts 24 buf.old) 0x80 self }
    {
        let n = buf.len();
        if n == 0 {
            return self;
        }
        // 80 is added once, before the loop, and every block's Up has 00
        let mut v = self.coloured(0x80);
        // full blocks by themselves, so that their loop holds no words for the other lengths; by index, as above
        let mut i = 0;
        while 24 <= n - i {
            v = decrypt_full::<Six>(permute_words(v), &mut buf[i..i + 24]);
            i += 24;
        }
        if i < n {
            v = decrypt_block(v, &mut buf[i..n]);
        }
        Duplex::after_down(v, self.mode)
    }
}

impl Rule {
    // Whether a message of n bytes is one empty block.
    pub fn is_empty_block(self, n: usize) -> bool
        ensures { result ≡ empty_block self n }
    {
        match self {
            Self::Crate => false,
            Self::Specification => n == 0,
        }
    }
}

impl Session {
    // A message encrypted or decrypted where it lies.
    pub(crate) fn crypt(self, kind: Kind, buf: &mut [u8]) -> Session
        ensures value { result ≡ crypt_end kind self buf.old }
        ensures buf_after { buf.new ≡ crypt_out kind self buf.old }
    {
        if self.rule.is_empty_block(buf.len()) {
            return self.onward(self.duplex.empty_block());
        }
        match kind {
            Kind::Seal => self.onward(self.duplex.encrypt_blocks(buf)),
            Kind::Open => self.onward(self.duplex.decrypt_blocks(buf)),
        }
    }

    // By copy into the front of an output; what lies past it stays.
    fn crypt_into(self, kind: Kind, out: &mut [u8], bin: &[u8]) -> Answer
        ensures value { result ≡ answer_of (crypt_of kind self out.old bin.now) }
        ensures out_after { out.new ≡ (crypt_of kind self out.old bin.now).bytes }
    {
        let n = bin.len();
        if let Err(refusal) = self.keyed_with_room(out.len(), n) {
            return self.refused(refusal);
        }
        let text = &mut out[..n];
        copy_into(text, bin);
        self.crypt(kind, text).paid(0, self.message_share(n))
    }

    fn crypt_in_place(self, kind: Kind, in_out: &mut [u8]) -> Answer
        ensures value { result ≡ answer_of (crypt_in_place_of kind self in_out.old) }
        ensures in_out_after { in_out.new ≡ (crypt_in_place_of kind self in_out.old).bytes }
    {
        if let Err(refusal) = self.keyed() {
            return self.refused(refusal);
        }
        self.crypt(kind, in_out)
            .paid(0, self.message_share(in_out.len()))
    }

    // Refused, it hands back a fresh Hash session with that rule. Flags and slices, here and in the next call: by the rules of this project an
    // optional argument is both.
    pub fn new<'a>(
        rule: Rule,
        key: &[u8],
        has_nonce: bool,
        nonce: &'a [u8],
        has_id: bool,
        id: &'a [u8],
        has_counter: bool,
        counter: &[u8],
    ) -> Answer
        ensures { result ≡ answer_of (new_of rule key.now has_nonce nonce.now has_id id.now has_counter counter.now) }
    {
        let i = or_empty(has_id, id);
        let m = or_empty(has_nonce, nonce);
        let unkeyed = Session::hash(rule);
        if let Err(refusal) = key_lengths(key.len(), i.len(), m.len()) {
            return unkeyed.refused(refusal);
        }
        let parts = KeyParts {
            key,
            t: choose(has_id, i, m),
            nonce: has_id.then_some(m),
            counter: has_counter.then_some(counter),
        };
        let d = Duplex::fresh(Mode::Keyed);
        unkeyed
            .onward(d.key_call(parts))
            .paid(0, d.key_share(parts))
    }

    pub fn absorb_key_and_nonce<'a>(
        self,
        key: &[u8],
        has_id: bool,
        id: &'a [u8],
        has_nonce: bool,
        nonce: &'a [u8],
        has_counter: bool,
        counter: &[u8],
    ) -> Answer
        ensures { result ≡ answer_of (key_of self key.now has_id id.now has_nonce nonce.now has_counter counter.now) }
    {
        let i = or_empty(has_id, id);
        let m = or_empty(has_nonce, nonce);
        if let Err(refusal) = self.keyed_with_lengths(key.len(), i.len(), m.len()) {
            return self.refused(refusal);
        }
        let parts = KeyParts {
            key,
            t: choose(has_id, i, m),
            nonce: has_id.then_some(m),
            counter: has_counter.then_some(counter),
        };
        self.onward(self.duplex.key_call(parts))
            .paid(0, self.duplex.key_share(parts))
    }

    pub fn ratchet(self) -> Answer
        ensures { result ≡ answer_of (ratchet_of self) }
    {
        if let Err(refusal) = self.keyed() {
            return self.refused(refusal);
        }
        self.onward(self.duplex.ratchet()).paid(0, 1)
    }

    pub fn encrypt(self, out: &mut [u8], bin: &[u8]) -> Answer
        ensures value { result ≡ answer_of (encrypt_of self out.old bin.now) }
        ensures out_after { out.new ≡ (encrypt_of self out.old bin.now).bytes }
    {
        self.crypt_into(Kind::Seal, out, bin)
    }

    pub fn decrypt(self, out: &mut [u8], bin: &[u8]) -> Answer
        ensures value { result ≡ answer_of (decrypt_of self out.old bin.now) }
        ensures out_after { out.new ≡ (decrypt_of self out.old bin.now).bytes }
    {
        self.crypt_into(Kind::Open, out, bin)
    }

    pub fn encrypt_in_place(self, in_out: &mut [u8]) -> Answer
        ensures value { result ≡ answer_of (encrypt_in_place_of self in_out.old) }
        ensures in_out_after { in_out.new ≡ (encrypt_in_place_of self in_out.old).bytes }
    {
        self.crypt_in_place(Kind::Seal, in_out)
    }

    pub fn decrypt_in_place(self, in_out: &mut [u8]) -> Answer
        ensures value { result ≡ answer_of (decrypt_in_place_of self in_out.old) }
        ensures in_out_after { in_out.new ≡ (decrypt_in_place_of self in_out.old).bytes }
    {
        self.crypt_in_place(Kind::Open, in_out)
    }
}
