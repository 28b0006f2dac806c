// Sealing and opening: encryption with a tag of 16 bytes, detached or after the ciphertext, by copy or in place.
ghost use Rattle.std.specs.Prelude.{◌≡◌, [], ◌++◌, ◌-◌, ◌≤◌, length, replicate, take, drop};
ghost use Rattle.xoodyak.specs.Cyclist.{given};
ghost use Rattle.xoodyak.specs.Calls.{no_tag, answer_of, sealed_of, taken, encrypt_end, encrypt_out, decrypt_out, seal_ups, opened, tag_end, tag_out, seal_detached_of, seal_of, seal_in_place_detached_of, seal_in_place_of, open_detached_of, open_of, open_in_place_detached_of, open_in_place_of};

use crate::bytes::{clear, copy_into, or_empty, same_bytes};
use crate::feed::Kind;
use crate::numbers::has_room;
use crate::tag::Tag;
use crate::{Answer, Sealed, Session};

// All but the last 16 bytes, or an empty part where there are fewer.
pub fn plaintext_part<'a>(buf: &'a mut [u8]) -> &'a mut [u8]
    ensures { (result.ref_ptr ≡ buf.entry.ref_ptr) × (result.now ≡ take (length buf.old - 16) buf.old) }
{
    let n = buf.len();
    let e = if n < 16 { 0 } else { n - 16 };
    &mut buf[..e]
}

impl Session {
    // Encrypts a message where it lies, and squeezes the tag into a part of 16 bytes.
    fn seal(self, text: &mut [u8], tag: &mut [u8]) -> Answer
        requires { length tag.old ≡ 16 }
        ensures value { result ≡ answer_of (taken (tag_end (encrypt_end self text.old)) no_tag [] (seal_ups self text.old)) }
        ensures text_after { text.new ≡ encrypt_out self text.old }
        ensures tag_after { tag.new ≡ tag_out (encrypt_end self text.old) }
    {
        let s = self.crypt(Kind::Seal, text);
        s.onward(s.duplex.squeeze_any(tag, 0x40))
            .paid(0, self.seal_share(text.len()))
    }

    // Decrypts a message where it lies, and zeroes it where the tag, 16 bytes, differs.
    fn open(self, text: &mut [u8], tag: &[u8]) -> Answer
        requires { length tag.now ≡ 16 }
        ensures value { result ≡ answer_of (opened self tag.now text.old (decrypt_out self text.old) (replicate (length text.old) 0)) }
        ensures text_after { text.new ≡ (opened self tag.now text.old (decrypt_out self text.old) (replicate (length text.old) 0)).bytes }
    {
        let s = self.crypt(Kind::Open, text);
        let mut squeezed = [0u8; 16];
        let past = s.onward(s.duplex.squeeze_any(&mut squeezed, 0x40));
        let spent = self.seal_share(text.len());
        if same_bytes(&squeezed, tag) {
            return past.paid(0, spent);
        }
        clear(text);
        past.paid(4, spent)
    }

    // By copy into the front of an output, all of which is zeroed where the tag differs.
    fn open_into(self, out: &mut [u8], bin: &[u8], tag: &[u8]) -> Answer
        requires { (length bin.now ≤ length out.old) × (length tag.now ≡ 16) }
        ensures value { result ≡ answer_of (opened self tag.now bin.now (decrypt_out self bin.now ++ drop (length bin.now) out.old) (replicate (length out.old) 0)) }
        ensures out_after { out.new ≡ (opened self tag.now bin.now (decrypt_out self bin.now ++ drop (length bin.now) out.old) (replicate (length out.old) 0)).bytes }
    {
        let (text, past) = out.split_at_mut(bin.len());
        copy_into(text, bin);
        let answer = self.open(text, tag);
        if answer.number != 0 {
            clear(past);
        }
        answer
    }

    // An optional text is a flag and a slice, by the rules of this project; so it is in the calls below.
    pub fn aead_encrypt_detached(self, out: &mut [u8], has_bin: bool, bin: &[u8]) -> Sealed
        ensures value { result ≡ sealed_of (seal_detached_of self out.old (given has_bin bin.now)) }
        ensures out_after { out.new ≡ (seal_detached_of self out.old (given has_bin bin.now)).bytes }
    {
        let m = or_empty(has_bin, bin);
        let n = m.len();
        if let Err(refusal) = self.keyed_with_room(out.len(), n) {
            return self.refused(refusal).sealed(Tag::default());
        }
        let text = &mut out[..n];
        copy_into(text, m);
        let mut tag = [0u8; 16];
        self.seal(text, &mut tag).sealed(Tag::from_bytes(tag))
    }

    pub fn aead_encrypt(self, out: &mut [u8], has_bin: bool, bin: &[u8]) -> Answer
        ensures value { result ≡ answer_of (seal_of self out.old (given has_bin bin.now)) }
        ensures out_after { out.new ≡ (seal_of self out.old (given has_bin bin.now)).bytes }
    {
        let m = or_empty(has_bin, bin);
        let n = m.len();
        if let Err(refusal) = self.keyed_with_room(out.len(), n + 16) {
            return self.refused(refusal);
        }
        let (text, rest) = out.split_at_mut(n);
        copy_into(text, m);
        self.seal(text, &mut rest[..16])
    }

    pub fn aead_encrypt_in_place_detached(self, in_out: &mut [u8]) -> Sealed
        ensures value { result ≡ sealed_of (seal_in_place_detached_of self in_out.old) }
        ensures in_out_after { in_out.new ≡ (seal_in_place_detached_of self in_out.old).bytes }
    {
        if let Err(refusal) = self.keyed() {
            return self.refused(refusal).sealed(Tag::default());
        }
        let mut tag = [0u8; 16];
        self.seal(in_out, &mut tag).sealed(Tag::from_bytes(tag))
    }

    pub fn aead_encrypt_in_place(self, in_out: &mut [u8]) -> Answer
        ensures value { result ≡ answer_of (seal_in_place_of self in_out.old) }
        ensures in_out_after { in_out.new ≡ (seal_in_place_of self in_out.old).bytes }
    {
        let len = in_out.len();
        if let Err(refusal) = self.keyed_with_tag(len) {
            return self.refused(refusal);
        }
        let (text, tag) = in_out.split_at_mut(len - 16);
        self.seal(text, tag)
    }

    pub fn aead_decrypt_detached(
        self,
        out: &mut [u8],
        tag: Tag,
        has_bin: bool,
        bin: &[u8],
    ) -> Answer
        ensures value { result ≡ answer_of (open_detached_of self out.old tag (given has_bin bin.now)) }
        ensures out_after { out.new ≡ (open_detached_of self out.old tag (given has_bin bin.now)).bytes }
    {
        let c = or_empty(has_bin, bin);
        if let Err(refusal) = self.keyed_with_room(out.len(), c.len()) {
            return self.refused(refusal);
        }
        self.open_into(out, c, &tag.bytes)
    }

    pub fn aead_decrypt(self, out: &mut [u8], bin: &[u8]) -> Answer
        ensures value { result ≡ answer_of (open_of self out.old bin.now) }
        ensures out_after { out.new ≡ (open_of self out.old bin.now).bytes }
    {
        let len = bin.len();
        if let Err(refusal) = self.keyed_with_tag(len) {
            return self.refused(refusal);
        }
        let n = len - 16;
        if let Err(refusal) = has_room(out.len(), n) {
            return self.refused(refusal);
        }
        self.open_into(out, &bin[..n], &bin[n..])
    }

    pub fn aead_decrypt_in_place_detached(self, in_out: &mut [u8], tag: Tag) -> Answer
        ensures value { result ≡ answer_of (open_in_place_detached_of self in_out.old tag) }
        ensures in_out_after { in_out.new ≡ (open_in_place_detached_of self in_out.old tag).bytes }
    {
        if let Err(refusal) = self.keyed() {
            return self.refused(refusal);
        }
        self.open(in_out, &tag.bytes)
    }

    #[tactic(auto, using(crate::proofs::Sealing::in_place))]
    pub fn aead_decrypt_in_place(self, in_out: &mut [u8]) -> Answer
        ensures value { result ≡ answer_of (open_in_place_of self in_out.old) }
        ensures in_out_after { in_out.new ≡ (open_in_place_of self in_out.old).bytes }
    {
        let len = in_out.len();
        if let Err(refusal) = self.keyed_with_tag(len) {
            return self.refused(refusal);
        }
        let (text, received) = in_out.split_at_mut(len - 16);
        self.open(text, received)
    }
}
