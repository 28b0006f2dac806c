// Exported calls that both modes have, on a session that is the caller's.
// Numbers, kinds and flags are bytes: the C interface.
#![tactic(auto, using(crate::proofs::Codes::decoding), unfolding(crate::specs::Capi::exported))]

ghost use Rattle.std.specs.Prelude.{◌≡◌, [], ltb};
ghost use Rattle.xoodyak.specs.declared.cyclist.Mode.TheVariants.{Hash};
ghost use Rattle.xoodyak.specs.Calls.{taken, session, no_tag, absorb_of, absorb_more_of, squeeze_of, squeeze_more_of};
ghost use Rattle.capi.specs.Capi.{rule_of, sound, exported, whole};

use crate::code::Code;
use crate::session::{UNSOUND, keep, put, session_of};
use xoodyak::{Rule, Session};

pub fn lafomeihu_hash(st: &mut [u8; 48], head: &mut [u8; 6], rule: u8) -> u8
    ensures { let x = exported (ltb rule 2) st.old head.old [] [] [] (λ _. whole (taken (session (rule_of rule) Hash) no_tag [] 0)) in (result ≡ x.number) × ((st.new ≡ x.st) × (head.new ≡ x.head)) }
{
    let Some(rule) = Rule::decode(rule) else {
        return UNSOUND;
    };
    put(st, head, Session::hash(rule));
    0
}

pub fn lafomeihu_absorb(
    st: &mut [u8; 48],
    head: &mut [u8; 6],
    bin: &[u8],
    counts: &mut [usize; 3],
) -> u8
    ensures { let x = exported (sound head.old) st.old head.old [] [] counts.old (λ s. whole (absorb_of s bin.now)) in (result ≡ x.number) × ((st.new ≡ x.st) × ((head.new ≡ x.head) × (counts.new ≡ x.counts))) }
{
    let Some(s) = session_of(*st, *head) else {
        return UNSOUND;
    };
    keep(st, head, counts, s.absorb(bin).into())
}

pub fn lafomeihu_absorb_more(
    st: &mut [u8; 48],
    head: &mut [u8; 6],
    bin: &[u8],
    rate: usize,
    counts: &mut [usize; 3],
) -> u8
    ensures { let x = exported (sound head.old) st.old head.old [] [] counts.old (λ s. whole (absorb_more_of s bin.now rate)) in (result ≡ x.number) × ((st.new ≡ x.st) × ((head.new ≡ x.head) × (counts.new ≡ x.counts))) }
{
    let Some(s) = session_of(*st, *head) else {
        return UNSOUND;
    };
    keep(st, head, counts, s.absorb_more(bin, rate).into())
}

pub fn lafomeihu_squeeze(
    st: &mut [u8; 48],
    head: &mut [u8; 6],
    out: &mut [u8],
    counts: &mut [usize; 3],
) -> u8
    ensures { let x = exported (sound head.old) st.old head.old out.old [] counts.old (λ s. whole (squeeze_of 0x40 s out.old)) in (result ≡ x.number) × ((st.new ≡ x.st) × ((head.new ≡ x.head) × ((out.new ≡ x.bytes) × (counts.new ≡ x.counts)))) }
{
    let Some(s) = session_of(*st, *head) else {
        return UNSOUND;
    };
    keep(st, head, counts, s.squeeze(out).into())
}

pub fn lafomeihu_squeeze_key(
    st: &mut [u8; 48],
    head: &mut [u8; 6],
    out: &mut [u8],
    counts: &mut [usize; 3],
) -> u8
    ensures { let x = exported (sound head.old) st.old head.old out.old [] counts.old (λ s. whole (squeeze_of 0x20 s out.old)) in (result ≡ x.number) × ((st.new ≡ x.st) × ((head.new ≡ x.head) × ((out.new ≡ x.bytes) × (counts.new ≡ x.counts)))) }
{
    let Some(s) = session_of(*st, *head) else {
        return UNSOUND;
    };
    keep(st, head, counts, s.squeeze_key(out).into())
}

pub fn lafomeihu_squeeze_more(
    st: &mut [u8; 48],
    head: &mut [u8; 6],
    out: &mut [u8],
    counts: &mut [usize; 3],
) -> u8
    ensures { let x = exported (sound head.old) st.old head.old out.old [] counts.old (λ s. whole (squeeze_more_of s out.old)) in (result ≡ x.number) × ((st.new ≡ x.st) × ((head.new ≡ x.head) × ((out.new ≡ x.bytes) × (counts.new ≡ x.counts)))) }
{
    let Some(s) = session_of(*st, *head) else {
        return UNSOUND;
    };
    keep(st, head, counts, s.squeeze_more(out).into())
}
