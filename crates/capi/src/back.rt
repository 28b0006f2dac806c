// Exported steps back on a session that is the caller's: its 48 bytes are those after the call, and the phase is a number for
// the phase before it.
// Numbers, kinds and flags are bytes: the C interface.
#![tactic(auto, unfolding(crate::specs::Back::exported_back))]

ghost use Rattle.std.specs.Prelude.{◌≡◌, false, IsTrue, get_or};
ghost use Rattle.walkback.specs.Walk.{before_of, absorbs, absorbs_more, squeezes, squeezes_key, squeezes_more, keys, encrypts, seals};
ghost use Rattle.capi.specs.Capi.{mode_of, phase_of, rule_of, flag_of, sound_with, with_flags};
ghost use Rattle.capi.specs.Back.{head_back, exported_back};

use crate::code::{Code, flags};
use crate::session::{UNSOUND, session_of};
use walkback::Before;
use xoodyak::Rule;
use xoodyak::cyclist::{Mode, Phase};

// Decodes the head and the phase before the call, makes the step on the caller's 48 bytes and puts there what it answers; the
// head gets the phase where the step is made.
#[tactic(auto, using(crate::proofs::Codes::decoding, crate::proofs::Heads::phase_written), unfolding(crate::specs::Capi::sound_with))]
fn step_back<F: FnOnce([u8; 48], Rule, Mode, Phase) -> Before>(
    st: &mut [u8; 48],
    head: &mut [u8; 6],
    phase: u8,
    step: F,
) -> u8
    requires { F.IsAlwaysCallable step }
    ensures made { IsTrue (sound_with head.old phase) → F.post step st.old (rule_of (get_or head.old 2 0)) (mode_of (get_or head.old 0 0)) (phase_of phase) (record { st = st.new; number = result }) × (head.new ≡ head_back result head.old phase) }
    ensures refused { sound_with head.old phase ≡ false → (result ≡ 40) × (st.new ≡ st.old) × (head.new ≡ head.old) }
{
    let (Some(s), Some(before)) = (session_of(*st, *head), Phase::decode(phase)) else {
        return UNSOUND;
    };
    let Before {
        st: earlier,
        number,
    } = step(*st, s.rule, s.duplex.mode, before);
    *st = earlier;
    if number == 0 {
        head[1] = phase;
    }
    number
}

pub fn lafomeihu_back_absorb(st: &mut [u8; 48], head: &mut [u8; 6], phase: u8, bin: &[u8]) -> u8
    ensures { let x = exported_back (sound_with head.old phase) st.old head.old phase (absorbs bin.now) in (result ≡ x.number) × ((st.new ≡ x.st) × (head.new ≡ x.head)) }
{
    let step = |b, rule, mode, before|
        ensures { result ≡ before_of rule mode before (absorbs bin.entry.now) b }
    { walkback::absorb(b, rule, mode, before, bin) };
    step_back(st, head, phase, step)
}

pub fn lafomeihu_back_absorb_more(
    st: &mut [u8; 48],
    head: &mut [u8; 6],
    phase: u8,
    bin: &[u8],
    rate: usize,
) -> u8
    ensures { let x = exported_back (sound_with head.old phase) st.old head.old phase (absorbs_more bin.now rate) in (result ≡ x.number) × ((st.new ≡ x.st) × (head.new ≡ x.head)) }
{
    let step = |b, rule, mode, before|
        ensures { result ≡ before_of rule mode before (absorbs_more bin.entry.now rate) b }
    { walkback::absorb_more(b, rule, mode, before, bin, rate) };
    step_back(st, head, phase, step)
}

pub fn lafomeihu_back_squeeze(st: &mut [u8; 48], head: &mut [u8; 6], phase: u8, n: usize) -> u8
    ensures { let x = exported_back (sound_with head.old phase) st.old head.old phase (squeezes n) in (result ≡ x.number) × ((st.new ≡ x.st) × (head.new ≡ x.head)) }
{
    let step = |b, rule, mode, before|
        ensures { result ≡ before_of rule mode before (squeezes n) b }
    { walkback::squeeze(b, rule, mode, before, n) };
    step_back(st, head, phase, step)
}

pub fn lafomeihu_back_squeeze_key(st: &mut [u8; 48], head: &mut [u8; 6], phase: u8, n: usize) -> u8
    ensures { let x = exported_back (sound_with head.old phase) st.old head.old phase (squeezes_key n) in (result ≡ x.number) × ((st.new ≡ x.st) × (head.new ≡ x.head)) }
{
    let step = |b, rule, mode, before|
        ensures { result ≡ before_of rule mode before (squeezes_key n) b }
    { walkback::squeeze_key(b, rule, mode, before, n) };
    step_back(st, head, phase, step)
}

pub fn lafomeihu_back_squeeze_more(st: &mut [u8; 48], head: &mut [u8; 6], phase: u8, n: usize) -> u8
    ensures { let x = exported_back (sound_with head.old phase) st.old head.old phase (squeezes_more n) in (result ≡ x.number) × ((st.new ≡ x.st) × (head.new ≡ x.head)) }
{
    let step = |b, rule, mode, before|
        ensures { result ≡ before_of rule mode before (squeezes_more n) b }
    { walkback::squeeze_more(b, rule, mode, before, n) };
    step_back(st, head, phase, step)
}

#[tactic(auto, using(crate::proofs::Codes::decoding), unfolding(crate::specs::Back::exported_back, crate::specs::Capi::with_flags))]
pub fn lafomeihu_back_key<'a>(
    st: &mut [u8; 48],
    head: &mut [u8; 6],
    phase: u8,
    key: &[u8],
    has_id: u8,
    id: &'a [u8],
    has_nonce: u8,
    nonce: &'a [u8],
    has_counter: u8,
    counter: &[u8],
) -> u8
    ensures { let x = exported_back (with_flags (sound_with head.old phase) has_id has_nonce has_counter) st.old head.old phase (keys key.now (flag_of has_id) id.now (flag_of has_nonce) nonce.now (flag_of has_counter) counter.now) in (result ≡ x.number) × ((st.new ≡ x.st) × (head.new ≡ x.head)) }
{
    let Some((has_id, has_nonce, has_counter)) = flags(has_id, has_nonce, has_counter) else {
        return UNSOUND;
    };
    let step = |b, rule, mode, before|
        ensures { result ≡ before_of rule mode before (keys key.entry.now has_id id.entry.now has_nonce nonce.entry.now has_counter counter.entry.now) b }
    {
        walkback::key(
            b,
            rule,
            mode,
            before,
            key,
            has_id,
            id,
            has_nonce,
            nonce,
            has_counter,
            counter,
        )
    };
    step_back(st, head, phase, step)
}

pub fn lafomeihu_back_encrypt(
    st: &mut [u8; 48],
    head: &mut [u8; 6],
    phase: u8,
    plaintext: &[u8],
) -> u8
    ensures { let x = exported_back (sound_with head.old phase) st.old head.old phase (encrypts plaintext.now) in (result ≡ x.number) × ((st.new ≡ x.st) × (head.new ≡ x.head)) }
{
    let step = |b, rule, mode, before|
        ensures { result ≡ before_of rule mode before (encrypts plaintext.entry.now) b }
    { walkback::encrypt(b, rule, mode, before, plaintext) };
    step_back(st, head, phase, step)
}

pub fn lafomeihu_back_seal(st: &mut [u8; 48], head: &mut [u8; 6], phase: u8, plaintext: &[u8]) -> u8
    ensures { let x = exported_back (sound_with head.old phase) st.old head.old phase (seals plaintext.now) in (result ≡ x.number) × ((st.new ≡ x.st) × (head.new ≡ x.head)) }
{
    let step = |b, rule, mode, before|
        ensures { result ≡ before_of rule mode before (seals plaintext.entry.now) b }
    { walkback::seal(b, rule, mode, before, plaintext) };
    step_back(st, head, phase, step)
}
