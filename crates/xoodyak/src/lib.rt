// Xoodyak: sessions that absorb, squeeze, encrypt and seal, over the permutation's promise.
#![tactic(auto)]

pub mod aead;
pub mod bytes;
pub mod cyclist;
pub mod feed;
pub mod hash;
pub mod key;
pub mod keyed;
pub mod numbers;
pub mod shares;
pub mod tag;
mod words;

ghost use Rattle.std.specs.Prelude.{◌≡◌};
ghost use Rattle.xoodyak.specs.Calls.{onward};
ghost use Rattle.xoodyak.specs.Refusals.{number_of, missing_of};

use cyclist::Duplex;
use feed::Message;
use numbers::Refusal;
use tag::Tag;

// Whose rule an empty message follows: the crate's, where it does nothing, or the specification's, where it runs one
// empty block.
#[derive(Clone, Copy)]
pub enum Rule {
    Crate,
    Specification,
}

#[derive(Clone, Copy)]
pub struct Session {
    pub duplex: Duplex,
    pub rule: Rule,
    pub message: Message,
}

// What a call hands back: the session, 0 or the number of the refusal, with 3 how many bytes the output lacks, and the permutations spent.
// A number and no `Result`: by the rules of this project public calls refuse by a number beside the session (`Demand1.antt` says which).
#[derive(Clone, Copy)]
pub struct Answer {
    pub session: Session,
    pub number: u8,
    pub missing: usize,
    pub spent: usize,
}

// The same with the tag of what was sealed; a refusal has a tag of zeros.
#[derive(Clone, Copy)]
pub struct Sealed {
    pub session: Session,
    pub number: u8,
    pub missing: usize,
    pub tag: Tag,
    pub spent: usize,
}

impl Session {
    // The session with its bytes and phase moved on; the rest stays.
    pub(crate) fn onward(self, duplex: Duplex) -> Session
        ensures { result ≡ onward self duplex }
    {
        Session { duplex, ..self }
    }

    // The answer of a refused call, which spends nothing.
    pub(crate) fn refused(self, refusal: Refusal) -> Answer
        ensures { result ≡ record { session = self; number = number_of refusal; missing = missing_of refusal; spent = 0 } }
    {
        Answer {
            session: self,
            number: refusal.number(),
            missing: refusal.missing(),
            spent: 0,
        }
    }

    // The answer of a call that was carried out: 0, or 4 where a tag differs.
    pub(crate) fn paid(self, number: u8, spent: usize) -> Answer
        ensures { result ≡ record { session = self; number = number; missing = 0; spent = spent } }
    {
        Answer {
            session: self,
            number,
            missing: 0,
            spent,
        }
    }
}

impl Answer {
    // The same with a tag, from sealing.
    pub(crate) fn sealed(self, tag: Tag) -> Sealed
        ensures { result ≡ record { session = self.session; number = self.number; missing = self.missing; tag = tag; spent = self.spent } }
    {
        Sealed {
            session: self.session,
            number: self.number,
            missing: self.missing,
            tag,
            spent: self.spent,
        }
    }
}
