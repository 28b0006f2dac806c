// Exported calls that seal or open a message handed over bit by bit. A kind is 0 to seal and 1 to open.
// Numbers, kinds and flags are bytes: the C interface.
#![tactic(auto, using(crate::proofs::Codes::decoding, crate::proofs::Finishes::none_sealing, crate::proofs::Finishes::none_opening), unfolding(crate::specs::Capi::exported, crate::specs::Capi::sound_with))]

ghost use Rattle.std.specs.Prelude.{◌≡◌, []};
ghost use Rattle.xoodyak.specs.Feed.{begin_of, feed_of, finish_seal_of, finish_open_of};
ghost use Rattle.capi.specs.Capi.{kind_of, sound, sound_with, exported, whole};

use crate::code::Code;
use crate::session::{UNSOUND, keep, put, session_of};
use xoodyak::feed::Kind;
use xoodyak::tag::Tag;

pub fn lafomeihu_begin(st: &mut [u8; 48], head: &mut [u8; 6], kind: u8) -> u8
    ensures { let x = exported (sound_with head.old kind) st.old head.old [] [] [] (λ s. whole (begin_of (kind_of kind) s)) in (result ≡ x.number) × ((st.new ≡ x.st) × (head.new ≡ x.head)) }
{
    let (Some(s), Some(kind)) = (session_of(*st, *head), Kind::decode(kind)) else {
        return UNSOUND;
    };
    let a = s.begin(kind);
    put(st, head, a.session);
    a.number
}

pub fn lafomeihu_feed(
    st: &mut [u8; 48],
    head: &mut [u8; 6],
    kind: u8,
    out: &mut [u8],
    piece: &[u8],
    allowance: usize,
    counts: &mut [usize; 3],
) -> u8
    ensures { let x = exported (sound_with head.old kind) st.old head.old out.old [] counts.old (λ s. feed_of (kind_of kind) s out.old piece.now allowance) in (result ≡ x.number) × ((st.new ≡ x.st) × ((head.new ≡ x.head) × ((out.new ≡ x.bytes) × (counts.new ≡ x.counts)))) }
{
    let (Some(s), Some(kind)) = (session_of(*st, *head), Kind::decode(kind)) else {
        return UNSOUND;
    };
    keep(st, head, counts, s.feed(kind, out, piece, allowance).into())
}

pub fn lafomeihu_finish_seal(
    st: &mut [u8; 48],
    head: &mut [u8; 6],
    tag: &mut [u8; 16],
    counts: &mut [usize; 3],
) -> u8
    ensures { let x = exported (sound head.old) st.old head.old [] tag.old counts.old (λ s. finish_seal_of s) in (result ≡ x.number) × ((st.new ≡ x.st) × ((head.new ≡ x.head) × ((tag.new ≡ x.tag) × (counts.new ≡ x.counts)))) }
{
    let Some(s) = session_of(*st, *head) else {
        return UNSOUND;
    };
    let a = s.finish_seal();
    *tag = a.tag.into_bytes();
    keep(st, head, counts, a.into())
}

pub fn lafomeihu_finish_open(
    st: &mut [u8; 48],
    head: &mut [u8; 6],
    tag: &[u8; 16],
    counts: &mut [usize; 3],
) -> u8
    ensures { let x = exported (sound head.old) st.old head.old [] [] counts.old (λ s. finish_open_of s (record { bytes = tag.now })) in (result ≡ x.number) × ((st.new ≡ x.st) × ((head.new ≡ x.head) × (counts.new ≡ x.counts))) }
{
    let Some(s) = session_of(*st, *head) else {
        return UNSOUND;
    };
    keep(
        st,
        head,
        counts,
        s.finish_open(Tag::from_bytes(*tag)).into(),
    )
}
