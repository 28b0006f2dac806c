// A message handed over bit by bit: begin, feed within an allowance of permutations, finish.
ghost use Rattle.std.specs.Prelude.{◌≡◌};
ghost use Rattle.xoodyak.specs.Feed.{begin_of, feed_of, finish_seal_of, finish_open_of};
ghost use Rattle.face.specs.Face.{reply_of, feed_reply_of, finish_reply_of};

use crate::{FeedReply, FinishReply, Reply};
use xoodyak::Session;
use xoodyak::feed::Kind;
use xoodyak::tag::Tag;

pub fn begin(s: &mut Session, kind: Kind) -> Reply
    ensures { (result ≡ reply_of (begin_of kind s.old)) × (s.new ≡ (begin_of kind s.old).session) }
{
    Reply::stored(s.begin(kind), s)
}

pub fn feed(
    s: &mut Session,
    kind: Kind,
    out: &mut [u8],
    piece: &[u8],
    allowance: usize,
) -> FeedReply
    ensures { (result ≡ feed_reply_of (feed_of kind s.old out.old piece.now allowance)) × ((s.new ≡ (feed_of kind s.old out.old piece.now allowance).session) × (out.new ≡ (feed_of kind s.old out.old piece.now allowance).bytes)) }
{
    FeedReply::stored(s.feed(kind, out, piece, allowance), s)
}

pub fn finish_seal(s: &mut Session) -> FinishReply
    ensures { (result ≡ finish_reply_of (finish_seal_of s.old)) × (s.new ≡ (finish_seal_of s.old).session) }
{
    FinishReply::stored(s.finish_seal(), s)
}

pub fn finish_open(s: &mut Session, tag: Tag) -> FinishReply
    ensures { (result ≡ finish_reply_of (finish_open_of s.old tag)) × (s.new ≡ (finish_open_of s.old tag).session) }
{
    FinishReply::stored(s.finish_open(tag), s)
}
