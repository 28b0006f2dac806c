// The steps of a call undone, the last one first. A step works where the bytes lie, so that a loop makes no copy of them.
ghost use Rattle.std.specs.Prelude.{◌≡◌, [], ◌∷◌, ◌++◌, ◌+◌, ◌≤◌, ◌<◌, length, take};
ghost use Rattle.laws.specs.Blocks.{cuts};
ghost use Rattle.xoodyak.specs.Cyclist.{message_blocks};
ghost use Rattle.walkback.specs.Steps.{undone, up_step, down_step, block_steps, ready_steps, absorb_steps, squeeze_steps, squeeze_more_steps};
ghost use Rattle.walkback.specs.Walk.{key_run, given_steps};

use xoodoo::words::inverse_bytes;
use xoodyak::Rule;
use xoodyak::cyclist::{Mode, Phase};
use xoodyak::key::KeyParts;

// Key, t and the one-byte length of t, at the front of a run; how many. The session crate's own is private: it has a `requires`.
fn write_key(run: &mut [u8; 44], key: &[u8], t: &[u8]) -> usize
    requires { length key.now + 1 + length t.now ≤ 44 }
    ensures { (result ≡ length key.now + 1 + length t.now) × (take result run.new ≡ key_run key.now t.now) }
{
    let k = key.len();
    let end = k + t.len();
    run[..k].copy_from_slice(key);
    run[k..end].copy_from_slice(t);
    run[end] = t.len() as u8;
    end + 1
}

// The 48 bytes on their way back, and the mode, which stays.
#[derive(Clone, Copy)]
pub(crate) struct Undo {
    pub(crate) st: [u8; 48],
    pub(crate) mode: Mode,
}

impl Undo {
    // Up with cu: the inverse permutation, and the colour again.
    fn up(&mut self, cu: u8)
        ensures { self.new ≡ undone (up_step cu ∷ []) self.old }
    {
        inverse_bytes(&mut self.st);
        match self.mode {
            Mode::Hash => {}
            Mode::Keyed => self.st[47] ^= cu,
        }
    }

    // Down undoes itself: the run at byte 0, 01 after it, and the colour at byte 47.
    fn down(&mut self, x: &[u8], cd: u8)
        requires { length x.now < 48 }
        ensures { self.new ≡ undone (down_step x.now cd ∷ []) self.old }
    {
        for (i, b) in x.iter().enumerate() {
            self.st[i] ^= *b;
        }
        self.st[x.len()] ^= 1;
        self.st[47] ^= self.mode.down_colour(cd);
    }

    // Up(0, 00) if the phase wasn't Up.
    fn ready(&mut self, phase: Phase)
        ensures { self.new ≡ undone (ready_steps phase) self.old }
    {
        match phase {
            Phase::Up => {}
            Phase::Down => self.up(0),
        }
    }

    // Up with cu and Down with one block.
    fn block(&mut self, x: &[u8], cu: u8)
        requires { length x.now < 48 }
        ensures { self.new ≡ undone (block_steps cu (x.now ∷ [])) self.old }
    {
        self.down(x, 0);
        self.up(cu);
    }

    // All blocks of a run, cu being the colour of the first. Rates and lengths are bounded in each contract, as in xoodyak's cyclist.rt.
    pub(crate) fn blocks(&mut self, bin: &[u8], rate: usize, cu: u8)
        requires { (0 < rate) × (rate ≤ 44) }
        ensures { self.new ≡ undone (block_steps cu (cuts rate bin.now)) self.old }
    {
        for (i, x) in bin.chunks(rate).enumerate().rev() {
            let colour = if i == 0 { cu } else { 0 };
            self.block(x, colour);
        }
    }

    // The blocks of a message, in the number that the rule gives it.
    pub(crate) fn message(&mut self, rule: Rule, plaintext: &[u8])
        ensures { self.new ≡ undone (block_steps 0x80 (message_blocks rule plaintext.now)) self.old }
    {
        if rule.is_empty_block(plaintext.len()) {
            self.block(plaintext, 0x80);
        } else {
            self.blocks(plaintext, 24, 0x80);
        }
    }

    pub(crate) fn absorb(&mut self, phase: Phase, bin: &[u8], rate: usize, cd: u8)
        requires { (0 < rate) × (rate ≤ 44) }
        ensures { self.new ≡ undone (absorb_steps phase rate cd bin.now) self.old }
    {
        let (first, others) = bin.split_at(bin.len().min(rate));
        self.blocks(others, rate, 0);
        self.down(first, cd);
        self.ready(phase);
    }

    // Each block of a squeeze is Down(empty, 00) and Up with 00.
    pub(crate) fn squeeze_more(&mut self, n: usize)
        ensures { self.new ≡ undone (squeeze_more_steps self.old.mode n) self.old }
    {
        for _ in 0..n.div_ceil(self.mode.squeeze_rate()) {
            self.up(0);
            self.down(b"", 0);
        }
    }

    // A squeeze of no bytes still has one Up.
    pub(crate) fn squeeze(&mut self, n: usize, cu: u8)
        ensures { self.new ≡ undone (squeeze_steps self.old.mode cu n) self.old }
    {
        self.squeeze_more(n.saturating_sub(self.mode.squeeze_rate()));
        self.up(cu);
    }

    // Absorbs an optional slice.
    fn absorb_given(&mut self, x: Option<&[u8]>, rate: usize)
        requires { (0 < rate) × (rate ≤ 44) }
        ensures { self.new ≡ undone (given_steps rate x.entry) self.old }
    {
        if let Some(x) = x {
            self.absorb(Phase::Down, x, rate, 0);
        }
    }

    // The key call.
    pub(crate) fn key(&mut self, phase: Phase, parts: KeyParts)
        ensures { self.new ≡ undone (absorb_steps phase 44 2 (key_run parts.entry.key.now parts.entry.t.now) ++ (given_steps 44 parts.entry.nonce ++ given_steps 1 parts.entry.counter)) self.old }
    {
        self.absorb_given(parts.counter, 1);
        self.absorb_given(parts.nonce, 44);
        let mut run = [0; 44];
        let n = write_key(&mut run, parts.key, parts.t);
        self.absorb(phase, &run[..n], 44, 0x02);
    }
}
