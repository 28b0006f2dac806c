// Hash sessions, and the calls that both modes have.
ghost use Rattle.std.specs.Prelude.{◌≡◌};
ghost use Rattle.xoodyak.specs.declared.cyclist.Mode.TheVariants.{Hash};
ghost use Rattle.xoodyak.specs.Calls.{session, answer_of, absorb_of, absorb_more_of, squeeze_of, squeeze_more_of};

use crate::cyclist::{Duplex, Mode};
use crate::feed::Message;
use crate::shares::block_count;
use crate::{Answer, Rule, Session};

impl Session {
    pub fn hash(rule: Rule) -> Session
        ensures { result ≡ session rule Hash }
    {
        Session {
            duplex: Duplex::fresh(Mode::Hash),
            rule,
            message: Message::idle(),
        }
    }

    pub fn absorb(self, bin: &[u8]) -> Answer
        ensures { result ≡ answer_of (absorb_of self bin.now) }
    {
        if let Err(refusal) = self.unbegun() {
            return self.refused(refusal);
        }
        let rate = self.duplex.mode.absorb_rate();
        self.onward(self.duplex.absorb_any(bin, rate, 0x03))
            .paid(0, self.duplex.absorb_share(rate, bin.len()))
    }

    pub fn absorb_more(self, bin: &[u8], rate: usize) -> Answer
        ensures { result ≡ answer_of (absorb_more_of self bin.now rate) }
    {
        if let Err(refusal) = self.unbegun_at(rate) {
            return self.refused(refusal);
        }
        self.onward(self.duplex.absorb_more(bin, rate))
            .paid(0, block_count(rate, bin.len()))
    }

    // A squeeze with this colour.
    fn squeeze_with(self, cu: u8, out: &mut [u8]) -> Answer
        ensures value { result ≡ answer_of (squeeze_of cu self out.old) }
        ensures out_after { out.new ≡ (squeeze_of cu self out.old).bytes }
    {
        if let Err(refusal) = self.unbegun() {
            return self.refused(refusal);
        }
        self.onward(self.duplex.squeeze_any(out, cu))
            .paid(0, self.duplex.squeeze_share(out.len()))
    }

    pub fn squeeze(self, out: &mut [u8]) -> Answer
        ensures value { result ≡ answer_of (squeeze_of 0x40 self out.old) }
        ensures out_after { out.new ≡ (squeeze_of 0x40 self out.old).bytes }
    {
        self.squeeze_with(0x40, out)
    }

    pub fn squeeze_key(self, out: &mut [u8]) -> Answer
        ensures value { result ≡ answer_of (squeeze_of 0x20 self out.old) }
        ensures out_after { out.new ≡ (squeeze_of 0x20 self out.old).bytes }
    {
        self.squeeze_with(0x20, out)
    }

    pub fn squeeze_more(self, out: &mut [u8]) -> Answer
        ensures value { result ≡ answer_of (squeeze_more_of self out.old) }
        ensures out_after { out.new ≡ (squeeze_more_of self out.old).bytes }
    {
        if let Err(refusal) = self.unbegun() {
            return self.refused(refusal);
        }
        self.onward(self.duplex.squeeze_more(out))
            .paid(0, block_count(self.duplex.mode.squeeze_rate(), out.len()))
    }
}
