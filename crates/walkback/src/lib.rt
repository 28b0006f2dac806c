// Walking back: the 48 bytes before a call, from the 48 bytes after it.
#![tactic(auto)]

mod steps;

ghost use Rattle.std.specs.Prelude.{◌≡◌};
ghost use Rattle.xoodyak.specs.Numbers.{first, mode_number, key_number};
ghost use Rattle.xoodyak.specs.Refusals.{number_of, Tells};
ghost use Rattle.walkback.specs.Walk.{absorbs, absorbs_more, squeezes, squeezes_key, squeezes_more, keys, encrypts, seals, before_of, phase_of, message_phase, unless_empty};

use steps::Undo;
use xoodyak::Rule;
use xoodyak::bytes::{choose, or_empty};
use xoodyak::cyclist::{Mode, Phase};
use xoodyak::key::KeyParts;
use xoodyak::numbers::{Refusal, key_lengths};

// The 48 bytes before the call and 0, or the 48 bytes given and the number that the call itself would refuse with. Public calls
// refuse by a number, and no `Result`.
#[derive(Clone, Copy)]
pub struct Before {
    pub st: [u8; 48],
    pub number: u8,
}

#[derive(Clone, Copy)]
pub enum Kind {
    Absorb,
    AbsorbMore,
    Squeeze,
    SqueezeKey,
    SqueezeMore,
    Key,
    Encrypt,
    Seal,
}

impl Before {
    fn accepted(st: [u8; 48]) -> Self
        ensures { result ≡ record { st = st; number = 0 } }
    {
        Self { st, number: 0 }
    }

    fn refused(given: [u8; 48], refusal: Refusal) -> Self
        ensures { result ≡ record { st = given; number = number_of refusal } }
    {
        Self {
            st: given,
            number: refusal.number(),
        }
    }
}

// What the key call asks.
fn keyed_with_lengths(mode: Mode, key: usize, id: usize, nonce: usize) -> Result<(), Refusal>
    ensures { Tells result (first (mode_number mode) (key_number key id nonce)) 0 }
{
    mode.keyed()?;
    key_lengths(key, id, nonce)
}

pub fn absorb(st: [u8; 48], rule: Rule, mode: Mode, phase: Phase, bin: &[u8]) -> Before
    ensures { result ≡ before_of rule mode phase (absorbs bin.now) st }
{
    let mut undo = Undo { st, mode };
    undo.absorb(phase, bin, mode.absorb_rate(), 0x03);
    Before::accepted(undo.st)
}

pub fn absorb_more(
    st: [u8; 48],
    rule: Rule,
    mode: Mode,
    phase: Phase,
    bin: &[u8],
    rate: usize,
) -> Before
    ensures { result ≡ before_of rule mode phase (absorbs_more bin.now rate) st }
{
    if let Err(refusal) = mode.takes(rate) {
        return Before::refused(st, refusal);
    }
    let mut undo = Undo { st, mode };
    undo.blocks(bin, rate, 0);
    Before::accepted(undo.st)
}

pub fn squeeze(st: [u8; 48], rule: Rule, mode: Mode, phase: Phase, n: usize) -> Before
    ensures { result ≡ before_of rule mode phase (squeezes n) st }
{
    let mut undo = Undo { st, mode };
    undo.squeeze(n, 0x40);
    Before::accepted(undo.st)
}

// Squeeze with another colour: a third function for both would be as long as each.
pub fn squeeze_key(st: [u8; 48], rule: Rule, mode: Mode, phase: Phase, n: usize) -> Before
    ensures { result ≡ before_of rule mode phase (squeezes_key n) st }
{
    let mut undo = Undo { st, mode };
    undo.squeeze(n, 0x20);
    Before::accepted(undo.st)
}

pub fn squeeze_more(st: [u8; 48], rule: Rule, mode: Mode, phase: Phase, n: usize) -> Before
    ensures { result ≡ before_of rule mode phase (squeezes_more n) st }
{
    let mut undo = Undo { st, mode };
    undo.squeeze_more(n);
    Before::accepted(undo.st)
}

// A public call takes an optional argument as a flag and a slice.
pub fn key<'a>(
    st: [u8; 48],
    rule: Rule,
    mode: Mode,
    phase: Phase,
    key: &[u8],
    has_id: bool,
    id: &'a [u8],
    has_nonce: bool,
    nonce: &'a [u8],
    has_counter: bool,
    counter: &[u8],
) -> Before
    ensures { result ≡ before_of rule mode phase (keys key.now has_id id.now has_nonce nonce.now has_counter counter.now) st }
{
    let i = or_empty(has_id, id);
    let m = or_empty(has_nonce, nonce);
    if let Err(refusal) = keyed_with_lengths(mode, key.len(), i.len(), m.len()) {
        return Before::refused(st, refusal);
    }
    let parts = KeyParts {
        key,
        t: choose(has_id, i, m),
        nonce: has_id.then_some(m),
        counter: has_counter.then_some(counter),
    };
    let mut undo = Undo { st, mode };
    undo.key(phase, parts);
    Before::accepted(undo.st)
}

pub fn encrypt(st: [u8; 48], rule: Rule, mode: Mode, phase: Phase, plaintext: &[u8]) -> Before
    ensures { result ≡ before_of rule mode phase (encrypts plaintext.now) st }
{
    if let Err(refusal) = mode.keyed() {
        return Before::refused(st, refusal);
    }
    let mut undo = Undo { st, mode };
    undo.message(rule, plaintext);
    Before::accepted(undo.st)
}

pub fn seal(st: [u8; 48], rule: Rule, mode: Mode, phase: Phase, plaintext: &[u8]) -> Before
    ensures { result ≡ before_of rule mode phase (seals plaintext.now) st }
{
    if let Err(refusal) = mode.keyed() {
        return Before::refused(st, refusal);
    }
    let mut undo = Undo { st, mode };
    undo.squeeze(16, 0x40);
    undo.message(rule, plaintext);
    Before::accepted(undo.st)
}

fn unless_empty(n: usize, before: Phase, after: Phase) -> Phase
    ensures { result ≡ unless_empty n before after }
{
    if n == 0 { before } else { after }
}

// The phase after a message; an empty one has no block under the crate rule.
fn message_phase(rule: Rule, n: usize, before: Phase) -> Phase
    ensures { result ≡ message_phase rule n before }
{
    match rule {
        Rule::Crate => unless_empty(n, before, Phase::Down),
        Rule::Specification => Phase::Down,
    }
}

// The phase after an accepted call, from the rule, the phase before it, its kind and the length of its input or output.
pub fn phase_after(rule: Rule, phase: Phase, kind: Kind, n: usize) -> Phase
    ensures { result ≡ phase_of rule phase kind n }
{
    match kind {
        Kind::Absorb | Kind::Key => Phase::Down,
        Kind::AbsorbMore => unless_empty(n, phase, Phase::Down),
        Kind::Squeeze | Kind::SqueezeKey | Kind::Seal => Phase::Up,
        Kind::SqueezeMore => unless_empty(n, phase, Phase::Up),
        Kind::Encrypt => message_phase(rule, n, phase),
    }
}
