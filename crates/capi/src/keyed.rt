// Exported keyed calls: a session made new, the key call, ratchet, encryption and decryption.
// Numbers, kinds and flags are bytes: the C interface.
#![tactic(auto, using(crate::proofs::Codes::decoding), unfolding(crate::specs::Capi::exported, crate::specs::Capi::with_flags))]

ghost use Rattle.std.specs.Prelude.{◌≡◌, [], ltb};
ghost use Rattle.xoodyak.specs.Calls.{key_of, new_of, ratchet_of, encrypt_of, decrypt_of, encrypt_in_place_of, decrypt_in_place_of};
ghost use Rattle.capi.specs.Capi.{rule_of, flag_of, sound, with_flags, exported, whole};

use crate::code::{Code, flags};
use crate::session::{UNSOUND, keep, session_of};
use xoodyak::{Rule, Session};

pub fn lafomeihu_new<'a>(
    st: &mut [u8; 48],
    head: &mut [u8; 6],
    rule: u8,
    key: &[u8],
    has_nonce: u8,
    nonce: &'a [u8],
    has_id: u8,
    id: &'a [u8],
    has_counter: u8,
    counter: &[u8],
    counts: &mut [usize; 3],
) -> u8
    ensures { let x = exported (with_flags (ltb rule 2) has_nonce has_id has_counter) st.old head.old [] [] counts.old (λ _. whole (new_of (rule_of rule) key.now (flag_of has_nonce) nonce.now (flag_of has_id) id.now (flag_of has_counter) counter.now)) in (result ≡ x.number) × ((st.new ≡ x.st) × ((head.new ≡ x.head) × (counts.new ≡ x.counts))) }
{
    let (Some(rule), Some((has_nonce, has_id, has_counter))) = (
        Rule::decode(rule),
        flags(has_nonce, has_id, has_counter),
    ) else {
        return UNSOUND;
    };
    let a = Session::new(
        rule,
        key,
        has_nonce,
        nonce,
        has_id,
        id,
        has_counter,
        counter,
    );
    keep(st, head, counts, a.into())
}

pub fn lafomeihu_absorb_key_and_nonce<'a>(
    st: &mut [u8; 48],
    head: &mut [u8; 6],
    key: &[u8],
    has_id: u8,
    id: &'a [u8],
    has_nonce: u8,
    nonce: &'a [u8],
    has_counter: u8,
    counter: &[u8],
    counts: &mut [usize; 3],
) -> u8
    ensures { let x = exported (with_flags (sound head.old) has_id has_nonce has_counter) st.old head.old [] [] counts.old (λ s. whole (key_of s key.now (flag_of has_id) id.now (flag_of has_nonce) nonce.now (flag_of has_counter) counter.now)) in (result ≡ x.number) × ((st.new ≡ x.st) × ((head.new ≡ x.head) × (counts.new ≡ x.counts))) }
{
    let (Some(s), Some((has_id, has_nonce, has_counter))) = (
        session_of(*st, *head),
        flags(has_id, has_nonce, has_counter),
    ) else {
        return UNSOUND;
    };
    let a = s.absorb_key_and_nonce(key, has_id, id, has_nonce, nonce, has_counter, counter);
    keep(st, head, counts, a.into())
}

pub fn lafomeihu_ratchet(st: &mut [u8; 48], head: &mut [u8; 6], counts: &mut [usize; 3]) -> u8
    ensures { let x = exported (sound head.old) st.old head.old [] [] counts.old (λ s. whole (ratchet_of s)) in (result ≡ x.number) × ((st.new ≡ x.st) × ((head.new ≡ x.head) × (counts.new ≡ x.counts))) }
{
    let Some(s) = session_of(*st, *head) else {
        return UNSOUND;
    };
    keep(st, head, counts, s.ratchet().into())
}

pub fn lafomeihu_encrypt(
    st: &mut [u8; 48],
    head: &mut [u8; 6],
    out: &mut [u8],
    bin: &[u8],
    counts: &mut [usize; 3],
) -> u8
    ensures { let x = exported (sound head.old) st.old head.old out.old [] counts.old (λ s. whole (encrypt_of s out.old bin.now)) in (result ≡ x.number) × ((st.new ≡ x.st) × ((head.new ≡ x.head) × ((out.new ≡ x.bytes) × (counts.new ≡ x.counts)))) }
{
    let Some(s) = session_of(*st, *head) else {
        return UNSOUND;
    };
    keep(st, head, counts, s.encrypt(out, bin).into())
}

pub fn lafomeihu_decrypt(
    st: &mut [u8; 48],
    head: &mut [u8; 6],
    out: &mut [u8],
    bin: &[u8],
    counts: &mut [usize; 3],
) -> u8
    ensures { let x = exported (sound head.old) st.old head.old out.old [] counts.old (λ s. whole (decrypt_of s out.old bin.now)) in (result ≡ x.number) × ((st.new ≡ x.st) × ((head.new ≡ x.head) × ((out.new ≡ x.bytes) × (counts.new ≡ x.counts)))) }
{
    let Some(s) = session_of(*st, *head) else {
        return UNSOUND;
    };
    keep(st, head, counts, s.decrypt(out, bin).into())
}

pub fn lafomeihu_encrypt_in_place(
    st: &mut [u8; 48],
    head: &mut [u8; 6],
    in_out: &mut [u8],
    counts: &mut [usize; 3],
) -> u8
    ensures { let x = exported (sound head.old) st.old head.old in_out.old [] counts.old (λ s. whole (encrypt_in_place_of s in_out.old)) in (result ≡ x.number) × ((st.new ≡ x.st) × ((head.new ≡ x.head) × ((in_out.new ≡ x.bytes) × (counts.new ≡ x.counts)))) }
{
    let Some(s) = session_of(*st, *head) else {
        return UNSOUND;
    };
    keep(st, head, counts, s.encrypt_in_place(in_out).into())
}

pub fn lafomeihu_decrypt_in_place(
    st: &mut [u8; 48],
    head: &mut [u8; 6],
    in_out: &mut [u8],
    counts: &mut [usize; 3],
) -> u8
    ensures { let x = exported (sound head.old) st.old head.old in_out.old [] counts.old (λ s. whole (decrypt_in_place_of s in_out.old)) in (result ≡ x.number) × ((st.new ≡ x.st) × ((head.new ≡ x.head) × ((in_out.new ≡ x.bytes) × (counts.new ≡ x.counts)))) }
{
    let Some(s) = session_of(*st, *head) else {
        return UNSOUND;
    };
    keep(st, head, counts, s.decrypt_in_place(in_out).into())
}
