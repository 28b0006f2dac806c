// Exported calls that seal or open with a tag, and the comparison of tags.
// Numbers, kinds and flags are bytes: the C interface.
#![tactic(auto, using(crate::proofs::Codes::decoding), unfolding(crate::specs::Capi::exported, crate::specs::Capi::sound_with))]

ghost use Rattle.std.specs.Prelude.{◌≡◌, []};
ghost use Rattle.xoodyak.specs.Cyclist.{given};
ghost use Rattle.xoodyak.specs.Calls.{seal_detached_of, seal_of, open_detached_of, open_of, seal_in_place_detached_of, seal_in_place_of, open_in_place_detached_of, open_in_place_of, verify_of};
ghost use Rattle.capi.specs.Capi.{flag_of, sound, sound_with, exported, whole};

use crate::code::Code;
use crate::session::{UNSOUND, keep, session_of};
use xoodyak::tag::Tag;

pub fn lafomeihu_aead_encrypt_detached(
    st: &mut [u8; 48],
    head: &mut [u8; 6],
    out: &mut [u8],
    has_bin: u8,
    bin: &[u8],
    tag: &mut [u8; 16],
    counts: &mut [usize; 3],
) -> u8
    ensures { let x = exported (sound_with head.old has_bin) st.old head.old out.old tag.old counts.old (λ s. whole (seal_detached_of s out.old (given (flag_of has_bin) bin.now))) in (result ≡ x.number) × ((st.new ≡ x.st) × ((head.new ≡ x.head) × ((out.new ≡ x.bytes) × ((tag.new ≡ x.tag) × (counts.new ≡ x.counts))))) }
{
    let (Some(s), Some(has_bin)) = (session_of(*st, *head), bool::decode(has_bin)) else {
        return UNSOUND;
    };
    let a = s.aead_encrypt_detached(out, has_bin, bin);
    *tag = a.tag.into_bytes();
    keep(st, head, counts, a.into())
}

pub fn lafomeihu_aead_encrypt(
    st: &mut [u8; 48],
    head: &mut [u8; 6],
    out: &mut [u8],
    has_bin: u8,
    bin: &[u8],
    counts: &mut [usize; 3],
) -> u8
    ensures { let x = exported (sound_with head.old has_bin) st.old head.old out.old [] counts.old (λ s. whole (seal_of s out.old (given (flag_of has_bin) bin.now))) in (result ≡ x.number) × ((st.new ≡ x.st) × ((head.new ≡ x.head) × ((out.new ≡ x.bytes) × (counts.new ≡ x.counts)))) }
{
    let (Some(s), Some(has_bin)) = (session_of(*st, *head), bool::decode(has_bin)) else {
        return UNSOUND;
    };
    keep(st, head, counts, s.aead_encrypt(out, has_bin, bin).into())
}

pub fn lafomeihu_aead_decrypt_detached(
    st: &mut [u8; 48],
    head: &mut [u8; 6],
    out: &mut [u8],
    tag: &[u8; 16],
    has_bin: u8,
    bin: &[u8],
    counts: &mut [usize; 3],
) -> u8
    ensures { let x = exported (sound_with head.old has_bin) st.old head.old out.old [] counts.old (λ s. whole (open_detached_of s out.old (record { bytes = tag.now }) (given (flag_of has_bin) bin.now))) in (result ≡ x.number) × ((st.new ≡ x.st) × ((head.new ≡ x.head) × ((out.new ≡ x.bytes) × (counts.new ≡ x.counts)))) }
{
    let (Some(s), Some(has_bin)) = (session_of(*st, *head), bool::decode(has_bin)) else {
        return UNSOUND;
    };
    keep(
        st,
        head,
        counts,
        s.aead_decrypt_detached(out, Tag::from_bytes(*tag), has_bin, bin)
            .into(),
    )
}

pub fn lafomeihu_aead_decrypt(
    st: &mut [u8; 48],
    head: &mut [u8; 6],
    out: &mut [u8],
    bin: &[u8],
    counts: &mut [usize; 3],
) -> u8
    ensures { let x = exported (sound head.old) st.old head.old out.old [] counts.old (λ s. whole (open_of s out.old bin.now)) in (result ≡ x.number) × ((st.new ≡ x.st) × ((head.new ≡ x.head) × ((out.new ≡ x.bytes) × (counts.new ≡ x.counts)))) }
{
    let Some(s) = session_of(*st, *head) else {
        return UNSOUND;
    };
    keep(st, head, counts, s.aead_decrypt(out, bin).into())
}

pub fn lafomeihu_aead_encrypt_in_place_detached(
    st: &mut [u8; 48],
    head: &mut [u8; 6],
    in_out: &mut [u8],
    tag: &mut [u8; 16],
    counts: &mut [usize; 3],
) -> u8
    ensures { let x = exported (sound head.old) st.old head.old in_out.old tag.old counts.old (λ s. whole (seal_in_place_detached_of s in_out.old)) in (result ≡ x.number) × ((st.new ≡ x.st) × ((head.new ≡ x.head) × ((in_out.new ≡ x.bytes) × ((tag.new ≡ x.tag) × (counts.new ≡ x.counts))))) }
{
    let Some(s) = session_of(*st, *head) else {
        return UNSOUND;
    };
    let a = s.aead_encrypt_in_place_detached(in_out);
    *tag = a.tag.into_bytes();
    keep(st, head, counts, a.into())
}

pub fn lafomeihu_aead_encrypt_in_place(
    st: &mut [u8; 48],
    head: &mut [u8; 6],
    in_out: &mut [u8],
    counts: &mut [usize; 3],
) -> u8
    ensures { let x = exported (sound head.old) st.old head.old in_out.old [] counts.old (λ s. whole (seal_in_place_of s in_out.old)) in (result ≡ x.number) × ((st.new ≡ x.st) × ((head.new ≡ x.head) × ((in_out.new ≡ x.bytes) × (counts.new ≡ x.counts)))) }
{
    let Some(s) = session_of(*st, *head) else {
        return UNSOUND;
    };
    keep(st, head, counts, s.aead_encrypt_in_place(in_out).into())
}

pub fn lafomeihu_aead_decrypt_in_place_detached(
    st: &mut [u8; 48],
    head: &mut [u8; 6],
    in_out: &mut [u8],
    tag: &[u8; 16],
    counts: &mut [usize; 3],
) -> u8
    ensures { let x = exported (sound head.old) st.old head.old in_out.old [] counts.old (λ s. whole (open_in_place_detached_of s in_out.old (record { bytes = tag.now }))) in (result ≡ x.number) × ((st.new ≡ x.st) × ((head.new ≡ x.head) × ((in_out.new ≡ x.bytes) × (counts.new ≡ x.counts)))) }
{
    let Some(s) = session_of(*st, *head) else {
        return UNSOUND;
    };
    keep(
        st,
        head,
        counts,
        s.aead_decrypt_in_place_detached(in_out, Tag::from_bytes(*tag))
            .into(),
    )
}

pub fn lafomeihu_aead_decrypt_in_place(
    st: &mut [u8; 48],
    head: &mut [u8; 6],
    in_out: &mut [u8],
    counts: &mut [usize; 3],
) -> u8
    ensures { let x = exported (sound head.old) st.old head.old in_out.old [] counts.old (λ s. whole (open_in_place_of s in_out.old)) in (result ≡ x.number) × ((st.new ≡ x.st) × ((head.new ≡ x.head) × ((in_out.new ≡ x.bytes) × (counts.new ≡ x.counts)))) }
{
    let Some(s) = session_of(*st, *head) else {
        return UNSOUND;
    };
    keep(st, head, counts, s.aead_decrypt_in_place(in_out).into())
}

pub fn lafomeihu_verify(tag: &[u8; 16], bytes: &[u8; 16]) -> u8
    ensures { result ≡ verify_of (record { bytes = tag.now }) bytes.now }
{
    Tag::from_bytes(*tag).verify(*bytes)
}
