// Cyclist: Up, Down, absorb and squeeze over 48 bytes, a mode and a phase.
ghost use Rattle.std.specs.Prelude.{◌≡◌, ◌≤◌, ◌<◌, length};
ghost use Rattle.xoodoo.specs.Xoodoo.{to_bytes};
ghost use Rattle.xoodyak.specs.declared.cyclist.Mode.{Mode};
ghost use Rattle.xoodyak.specs.declared.cyclist.Phase.TheVariants.{Up, Down};
ghost use Rattle.xoodyak.specs.Cyclist.{fresh, absorb_rate, squeeze_rate, up_colour, down_colour, up, down, ready, absorb, absorb_more, squeeze_end, squeeze_out, squeeze_more_end, squeeze_more_out};
ghost use Rattle.xoodyak.specs.Numbers.{mode_number, rate_number};
ghost use Rattle.xoodyak.specs.Refusals.{Tells};

use crate::numbers::Refusal;
use crate::words::{absorb_block, down_words, next_words, write_front};
use xoodoo::round::State;
use xoodoo::words::{colour, from_words, permute_bytes, permute_words, to_words};

#[derive(Clone, Copy)]
pub enum Mode {
    Hash,
    Keyed,
}

#[derive(Clone, Copy)]
pub enum Phase {
    Up,
    Down,
}

#[derive(Clone, Copy)]
pub struct Duplex {
    pub st: [u8; 48],
    pub mode: Mode,
    pub phase: Phase,
}

impl Mode {
    pub fn absorb_rate(self) -> usize
        ensures { result ≡ absorb_rate self }
    {
        match self {
            Self::Hash => 16,
            Self::Keyed => 44,
        }
    }

    pub fn squeeze_rate(self) -> usize
        ensures { result ≡ squeeze_rate self }
    {
        match self {
            Self::Hash => 16,
            Self::Keyed => 24,
        }
    }

    // The colour that Down adds.
    pub fn down_colour(self, cd: u8) -> u8
        ensures { result ≡ down_colour self cd }
    {
        match self {
            Self::Hash => cd & 1,
            Self::Keyed => cd,
        }
    }

    // Keyed-only calls are refused in Hash.
    pub fn keyed(self) -> Result<(), Refusal>
        ensures { Tells result (mode_number self) 0 }
    {
        match self {
            Self::Hash => Err(Refusal::KeyRequired),
            Self::Keyed => Ok(()),
        }
    }

    // Whether absorb_more may have this rate.
    #[tactic(auto, using(crate::proofs::Settle::rates))]
    pub fn takes(self, rate: usize) -> Result<(), Refusal>
        ensures { Tells result (rate_number self rate) 0 }
    {
        if rate == 0 || self.absorb_rate() < rate {
            return Err(Refusal::BadRate);
        }
        Ok(())
    }
}

// Squeeze_more in the words that an Up left. By index: tried with chunks_mut and with a cursor of split_at_mut, `returns-clause-value` and
// `returns-clause-out_after` stayed open, since nothing is known of a block that either lends.
fn squeeze_words(w: State, mode: Mode, out: &mut [u8]) -> State
    ensures value { record { st = to_bytes result; mode = mode; phase = Up } ≡ squeeze_more_end (record { st = to_bytes w; mode = mode; phase = Up }) (length out.old) }
    ensures out_after { out.new ≡ squeeze_more_out (record { st = to_bytes w; mode = mode; phase = Up }) (length out.old) }
{
    let n = out.len();
    let rate = mode.squeeze_rate();
    let mut v = w;
    let mut i = 0;
    while i < n {
        let e = i + rate.min(n - i);
        v = next_words(v);
        write_front(v, &mut out[i..e]);
        i = e;
    }
    v
}

impl Duplex {
    pub(crate) fn fresh(mode: Mode) -> Self
        ensures { result ≡ fresh mode }
    {
        Duplex {
            st: [0; 48],
            mode,
            phase: Phase::Up,
        }
    }

    // The words that Up with cu permutes: if Keyed, byte 47 gains cu.
    pub(crate) fn coloured(self, cu: u8) -> State
        ensures { to_bytes result ≡ up_colour self.mode cu self.st }
    {
        let v = to_words(&self.st);
        match self.mode {
            Mode::Hash => v,
            Mode::Keyed => colour(v, cu),
        }
    }

    // Where the bytes lie, for those who go on in bytes.
    pub(crate) fn up(self, cu: u8) -> Self
        ensures { result ≡ up self cu }
    {
        let Duplex { mut st, mode, .. } = self;
        if let Mode::Keyed = mode {
            st[47] ^= cu;
        }
        permute_bytes(&mut st);
        Duplex {
            st,
            mode,
            phase: Phase::Up,
        }
    }

    // The duplex after an Up that left these words.
    pub(crate) fn after_up(v: State, mode: Mode) -> Self
        ensures { result ≡ record { st = to_bytes v; mode = mode; phase = Up } }
    {
        Duplex {
            st: from_words(v),
            mode,
            phase: Phase::Up,
        }
    }

    // After a Down.
    pub(crate) fn after_down(v: State, mode: Mode) -> Self
        ensures { result ≡ record { st = to_bytes v; mode = mode; phase = Down } }
    {
        Duplex {
            st: from_words(v),
            mode,
            phase: Phase::Down,
        }
    }

    // The bound stands in each Down, and in no type: the slices are cut by the rate where they are passed, and used once.
    #[tactic(auto, unfolding(crate::specs::Cyclist::down, crate::specs::Cyclist::down_bytes))]
    pub(crate) fn down(self, x: &[u8], cd: u8) -> Self
        requires { length x.now < 48 }
        ensures { result ≡ down self x.now cd }
    {
        let v = down_words(to_words(&self.st), x);
        Duplex::after_down(colour(v, self.mode.down_colour(cd)), self.mode)
    }

    // Up(0, 00) if the phase isn't Up.
    #[tactic(auto, unfolding(crate::specs::Cyclist::ready))]
    pub(crate) fn ready(self) -> Self
        ensures { result ≡ ready self }
    {
        match self.phase {
            Phase::Up => self,
            Phase::Down => self.up(0),
        }
    }

    // A rate stays a number with its bound in each contract that hands it on: a type would be made from a number at every call, and read as one in every promise.
    pub(crate) fn absorb_more(self, bin: &[u8], rate: usize) -> Self
        requires { (0 < rate) × (rate ≤ 44) }
        ensures { result ≡ absorb_more rate self bin.now }
    {
        if bin.is_empty() {
            return self;
        }
        let mut v = to_words(&self.st);
        for block in bin.chunks(rate) {
            v = absorb_block(v, block);
        }
        Duplex::after_down(v, self.mode)
    }

    pub(crate) fn absorb_any(self, bin: &[u8], rate: usize, cd: u8) -> Self
        requires { (0 < rate) × (rate ≤ 44) }
        ensures { result ≡ absorb rate cd self bin.now }
    {
        let (first, others) = bin.split_at(rate.min(bin.len()));
        self.ready().down(first, cd).absorb_more(others, rate)
    }

    pub(crate) fn squeeze_more(self, out: &mut [u8]) -> Self
        ensures value { result ≡ squeeze_more_end self (length out.old) }
        ensures out_after { out.new ≡ squeeze_more_out self (length out.old) }
    {
        if out.is_empty() {
            return self;
        }
        let v = squeeze_words(to_words(&self.st), self.mode, out);
        Duplex::after_up(v, self.mode)
    }

    pub(crate) fn squeeze_any(self, out: &mut [u8], cu: u8) -> Self
        ensures value { result ≡ squeeze_end self (length out.old) cu }
        ensures out_after { out.new ≡ squeeze_out self (length out.old) cu }
    {
        let n = out.len();
        let k = self.mode.squeeze_rate().min(n);
        let v = permute_words(self.coloured(cu));
        write_front(v, &mut out[..k]);
        // most squeezes end here, and need not hand their words on
        if k == n {
            return Duplex::after_up(v, self.mode);
        }
        Duplex::after_up(squeeze_words(v, self.mode, &mut out[k..]), self.mode)
    }
}
