// Sessions that are lent and changed in place: each call hands the session to the by-value core and stores the one that comes back.
#![tactic(auto)]

pub mod aead;
pub mod feed;
pub mod hash;
pub mod keyed;

ghost use Rattle.std.specs.Prelude.{◌≡◌};

use xoodyak::feed::{Fed, Finished};
use xoodyak::tag::Tag;
use xoodyak::{Answer, Sealed, Session};

// What a call hands back beside the session: 0 or the number of the refusal, with 3 how many bytes the output lacks, and the permutations spent.
// A number, and a flag with a slice for what is optional, as the core's calls have them.
#[derive(Clone, Copy)]
pub struct Reply {
    pub number: u8,
    pub missing: usize,
    pub spent: usize,
}

// The same with the tag of what was sealed; a refusal has a tag of zeros.
#[derive(Clone, Copy)]
pub struct SealReply {
    pub number: u8,
    pub missing: usize,
    pub tag: Tag,
    pub spent: usize,
}

// What a feed hands back, with the bytes taken.
#[derive(Clone, Copy)]
pub struct FeedReply {
    pub number: u8,
    pub missing: usize,
    pub taken: usize,
    pub spent: usize,
}

// What a finish hands back; the tag is that of what was sealed, and zeros otherwise.
#[derive(Clone, Copy)]
pub struct FinishReply {
    pub number: u8,
    pub tag: Tag,
    pub spent: usize,
}

impl Reply {
    // Stores the session that came back, and hands on the rest of the answer. Each type below does so by itself: their fields differ.
    fn stored(a: Answer, s: &mut Session) -> Self
        ensures { (result ≡ record { number = a.number; missing = a.missing; spent = a.spent }) × (s.new ≡ a.session) }
    {
        *s = a.session;
        Self {
            number: a.number,
            missing: a.missing,
            spent: a.spent,
        }
    }
}

impl SealReply {
    fn stored(a: Sealed, s: &mut Session) -> Self
        ensures { (result ≡ record { number = a.number; missing = a.missing; tag = a.tag; spent = a.spent }) × (s.new ≡ a.session) }
    {
        *s = a.session;
        Self {
            number: a.number,
            missing: a.missing,
            tag: a.tag,
            spent: a.spent,
        }
    }
}

impl FeedReply {
    fn stored(a: Fed, s: &mut Session) -> Self
        ensures { (result ≡ record { number = a.number; missing = a.missing; taken = a.taken; spent = a.spent }) × (s.new ≡ a.session) }
    {
        *s = a.session;
        Self {
            number: a.number,
            missing: a.missing,
            taken: a.taken,
            spent: a.spent,
        }
    }
}

impl FinishReply {
    fn stored(a: Finished, s: &mut Session) -> Self
        ensures { (result ≡ record { number = a.number; tag = a.tag; spent = a.spent }) × (s.new ≡ a.session) }
    {
        *s = a.session;
        Self {
            number: a.number,
            tag: a.tag,
            spent: a.spent,
        }
    }
}
