// Sealing and opening, detached or with the tag after the ciphertext, by copy or in place.
// What is optional is a flag and a slice, as in the core's calls.
ghost use Rattle.std.specs.Prelude.{◌≡◌};
ghost use Rattle.xoodyak.specs.Cyclist.{given};
ghost use Rattle.xoodyak.specs.Calls.{seal_detached_of, seal_of, seal_in_place_detached_of, seal_in_place_of, open_detached_of, open_of, open_in_place_detached_of, open_in_place_of};
ghost use Rattle.face.specs.Face.{seal_reply_of, reply_of};

use crate::{Reply, SealReply};
use xoodyak::Session;
use xoodyak::tag::Tag;

pub fn aead_encrypt_detached(
    s: &mut Session,
    out: &mut [u8],
    has_bin: bool,
    bin: &[u8],
) -> SealReply
    ensures { (result ≡ seal_reply_of (seal_detached_of s.old out.old (given has_bin bin.now))) × ((s.new ≡ (seal_detached_of s.old out.old (given has_bin bin.now)).session) × (out.new ≡ (seal_detached_of s.old out.old (given has_bin bin.now)).bytes)) }
{
    SealReply::stored(s.aead_encrypt_detached(out, has_bin, bin), s)
}

pub fn aead_encrypt(s: &mut Session, out: &mut [u8], has_bin: bool, bin: &[u8]) -> Reply
    ensures { (result ≡ reply_of (seal_of s.old out.old (given has_bin bin.now))) × ((s.new ≡ (seal_of s.old out.old (given has_bin bin.now)).session) × (out.new ≡ (seal_of s.old out.old (given has_bin bin.now)).bytes)) }
{
    Reply::stored(s.aead_encrypt(out, has_bin, bin), s)
}

pub fn aead_encrypt_in_place_detached(s: &mut Session, in_out: &mut [u8]) -> SealReply
    ensures { (result ≡ seal_reply_of (seal_in_place_detached_of s.old in_out.old)) × ((s.new ≡ (seal_in_place_detached_of s.old in_out.old).session) × (in_out.new ≡ (seal_in_place_detached_of s.old in_out.old).bytes)) }
{
    SealReply::stored(s.aead_encrypt_in_place_detached(in_out), s)
}

pub fn aead_encrypt_in_place(s: &mut Session, in_out: &mut [u8]) -> Reply
    ensures { (result ≡ reply_of (seal_in_place_of s.old in_out.old)) × ((s.new ≡ (seal_in_place_of s.old in_out.old).session) × (in_out.new ≡ (seal_in_place_of s.old in_out.old).bytes)) }
{
    Reply::stored(s.aead_encrypt_in_place(in_out), s)
}

pub fn aead_decrypt_detached(
    s: &mut Session,
    out: &mut [u8],
    tag: Tag,
    has_bin: bool,
    bin: &[u8],
) -> Reply
    ensures { (result ≡ reply_of (open_detached_of s.old out.old tag (given has_bin bin.now))) × ((s.new ≡ (open_detached_of s.old out.old tag (given has_bin bin.now)).session) × (out.new ≡ (open_detached_of s.old out.old tag (given has_bin bin.now)).bytes)) }
{
    Reply::stored(s.aead_decrypt_detached(out, tag, has_bin, bin), s)
}

pub fn aead_decrypt(s: &mut Session, out: &mut [u8], bin: &[u8]) -> Reply
    ensures { (result ≡ reply_of (open_of s.old out.old bin.now)) × ((s.new ≡ (open_of s.old out.old bin.now).session) × (out.new ≡ (open_of s.old out.old bin.now).bytes)) }
{
    Reply::stored(s.aead_decrypt(out, bin), s)
}

pub fn aead_decrypt_in_place_detached(s: &mut Session, in_out: &mut [u8], tag: Tag) -> Reply
    ensures { (result ≡ reply_of (open_in_place_detached_of s.old in_out.old tag)) × ((s.new ≡ (open_in_place_detached_of s.old in_out.old tag).session) × (in_out.new ≡ (open_in_place_detached_of s.old in_out.old tag).bytes)) }
{
    Reply::stored(s.aead_decrypt_in_place_detached(in_out, tag), s)
}

pub fn aead_decrypt_in_place(s: &mut Session, in_out: &mut [u8]) -> Reply
    ensures { (result ≡ reply_of (open_in_place_of s.old in_out.old)) × ((s.new ≡ (open_in_place_of s.old in_out.old).session) × (in_out.new ≡ (open_in_place_of s.old in_out.old).bytes)) }
{
    Reply::stored(s.aead_decrypt_in_place(in_out), s)
}
