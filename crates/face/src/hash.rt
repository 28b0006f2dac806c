// The calls that both modes have.
ghost use Rattle.std.specs.Prelude.{◌≡◌};
ghost use Rattle.xoodyak.specs.Calls.{absorb_of, absorb_more_of, squeeze_of, squeeze_more_of};
ghost use Rattle.face.specs.Face.{reply_of};

use crate::Reply;
use xoodyak::Session;

pub fn absorb(s: &mut Session, bin: &[u8]) -> Reply
    ensures { (result ≡ reply_of (absorb_of s.old bin.now)) × (s.new ≡ (absorb_of s.old bin.now).session) }
{
    Reply::stored(s.absorb(bin), s)
}

pub fn absorb_more(s: &mut Session, bin: &[u8], rate: usize) -> Reply
    ensures { (result ≡ reply_of (absorb_more_of s.old bin.now rate)) × (s.new ≡ (absorb_more_of s.old bin.now rate).session) }
{
    Reply::stored(s.absorb_more(bin, rate), s)
}

pub fn squeeze(s: &mut Session, out: &mut [u8]) -> Reply
    ensures { (result ≡ reply_of (squeeze_of 0x40 s.old out.old)) × ((s.new ≡ (squeeze_of 0x40 s.old out.old).session) × (out.new ≡ (squeeze_of 0x40 s.old out.old).bytes)) }
{
    Reply::stored(s.squeeze(out), s)
}

pub fn squeeze_key(s: &mut Session, out: &mut [u8]) -> Reply
    ensures { (result ≡ reply_of (squeeze_of 0x20 s.old out.old)) × ((s.new ≡ (squeeze_of 0x20 s.old out.old).session) × (out.new ≡ (squeeze_of 0x20 s.old out.old).bytes)) }
{
    Reply::stored(s.squeeze_key(out), s)
}

pub fn squeeze_more(s: &mut Session, out: &mut [u8]) -> Reply
    ensures { (result ≡ reply_of (squeeze_more_of s.old out.old)) × ((s.new ≡ (squeeze_more_of s.old out.old).session) × (out.new ≡ (squeeze_more_of s.old out.old).bytes)) }
{
    Reply::stored(s.squeeze_more(out), s)
}
