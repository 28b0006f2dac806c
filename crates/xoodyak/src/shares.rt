// What each accepted call costs in permutations, from public parts alone.
ghost use Rattle.std.specs.Prelude.{◌≡◌, ◌+◌, ◌^◌, ◌<◌, max, length};
ghost use Rattle.laws.specs.Blocks.{block_count};
ghost use Rattle.xoodyak.specs.Shares.{absorb_share, squeeze_share, message_share, seal_share, given_share};

use crate::cyclist::{Duplex, Phase};
use crate::key::KeyParts;
use crate::{Rule, Session};

// n divided by the rate, rounded up. A rate is a number, as in cyclist.rt.
pub(crate) fn block_count(rate: usize, n: usize) -> usize
    requires { 0 < rate }
    ensures { result ≡ block_count rate n }
{
    n.div_ceil(rate)
}

// One per block, less one if the phase was Up; an empty input is one block.
fn absorb_share(phase: Phase, rate: usize, n: usize) -> usize
    requires { 0 < rate }
    ensures { result ≡ absorb_share phase rate n }
{
    let all = block_count(rate, n).max(1);
    match phase {
        Phase::Up => all - 1,
        Phase::Down => all,
    }
}

// Of an optional slice, absorbed after the key.
fn given_share(rate: usize, x: Option<&[u8]>) -> usize
    requires { 0 < rate }
    ensures { (result ≡ given_share rate x.entry) × (result < 2 ^ 63) }
{
    match x {
        Some(x) => absorb_share(Phase::Down, rate, x.len()),
        None => 0,
    }
}

impl Duplex {
    pub(crate) fn absorb_share(self, rate: usize, n: usize) -> usize
        requires { 0 < rate }
        ensures { result ≡ absorb_share self.phase rate n }
    {
        absorb_share(self.phase, rate, n)
    }

    pub(crate) fn squeeze_share(self, n: usize) -> usize
        ensures { result ≡ squeeze_share self.mode n }
    {
        block_count(self.mode.squeeze_rate(), n).max(1)
    }

    pub(crate) fn key_share(self, parts: KeyParts) -> usize
        ensures { result ≡ absorb_share self.phase 44 (length parts.entry.key.now + (length parts.entry.t.now + 1)) + (given_share 44 parts.entry.nonce + given_share 1 parts.entry.counter) }
    {
        let a = self.absorb_share(44, parts.key.len() + (parts.t.len() + 1));
        let b = given_share(44, parts.nonce);
        let c = given_share(1, parts.counter);
        a + (b + c)
    }
}

impl Session {
    pub(crate) fn message_share(self, n: usize) -> usize
        ensures { result ≡ message_share self.rule n }
    {
        let blocks = block_count(24, n);
        match self.rule {
            Rule::Crate => blocks,
            Rule::Specification => blocks.max(1),
        }
    }

    // With the tag.
    pub(crate) fn seal_share(self, n: usize) -> usize
        ensures { result ≡ seal_share self.rule n }
    {
        self.message_share(n) + 1
    }
}
