// A session as the caller holds it, decoded and encoded: its 48 bytes, and a head of six numbers for mode, phase, rule and
// the message that may be unfinished: whether it is begun, its kind and its place.
ghost use Rattle.std.specs.Prelude.{◌≡◌, [], ◌∷◌};
ghost use Rattle.std.specs.Bool.{then_some};
ghost use Rattle.capi.specs.Capi.{sound, session_of, head_of};

use crate::code::Code;
use xoodyak::cyclist::{Duplex, Mode, Phase};
use xoodyak::feed::{Fed, Finished, Kind, Message};
use xoodyak::{Answer, Rule, Sealed, Session};

// What an exported call answers, with nothing changed, where a number of the caller's stands for nothing.
pub(crate) const UNSOUND: u8 = 40;

#[tactic(auto, using(crate::proofs::Codes::decoding), unfolding(crate::specs::Capi::sound))]
pub(crate) fn session_of(st: [u8; 48], head: [u8; 6]) -> Option<Session>
    ensures { result ≡ then_some (sound head) (session_of st head) }
{
    let [mode, phase, rule, begun, kind, place] = head;
    Some(Session {
        duplex: Duplex {
            st,
            mode: Mode::decode(mode)?,
            phase: Phase::decode(phase)?,
        },
        rule: Rule::decode(rule)?,
        message: Message {
            begun: bool::decode(begun)?,
            kind: Kind::decode(kind)?,
            place,
        },
    })
}

fn head_of(s: Session) -> [u8; 6]
    ensures { result ≡ head_of s }
{
    [
        s.duplex.mode.code(),
        s.duplex.phase.code(),
        s.rule.code(),
        s.message.begun.code(),
        s.message.kind.code(),
        s.message.place,
    ]
}

// Puts a session into the caller's memory.
pub(crate) fn put(st: &mut [u8; 48], head: &mut [u8; 6], s: Session)
    ensures { (st.new ≡ s.duplex.st) × (head.new ≡ head_of s) }
{
    let Duplex { st: after, .. } = s.duplex;
    *st = after;
    *head = head_of(s);
}

// What a call tells beside a tag: the session, its number, and the counts of bytes missing, bytes taken and permutations spent.
#[derive(Clone, Copy)]
pub(crate) struct Report {
    session: Session,
    number: u8,
    counts: [usize; 3],
}

impl From<Answer> for Report {
    ghost from_gives = { λ a r. r ≡ record { session = a.session; number = a.number; counts = a.missing ∷ 0 ∷ a.spent ∷ [] } };

    fn from(a: Answer) -> Report {
        Report {
            session: a.session,
            number: a.number,
            counts: [a.missing, 0, a.spent],
        }
    }
}

impl From<Sealed> for Report {
    ghost from_gives = { λ a r. r ≡ record { session = a.session; number = a.number; counts = a.missing ∷ 0 ∷ a.spent ∷ [] } };

    fn from(a: Sealed) -> Report {
        Report {
            session: a.session,
            number: a.number,
            counts: [a.missing, 0, a.spent],
        }
    }
}

impl From<Fed> for Report {
    ghost from_gives = { λ a r. r ≡ record { session = a.session; number = a.number; counts = a.missing ∷ a.taken ∷ a.spent ∷ [] } };

    fn from(a: Fed) -> Report {
        Report {
            session: a.session,
            number: a.number,
            counts: [a.missing, a.taken, a.spent],
        }
    }
}

impl From<Finished> for Report {
    ghost from_gives = { λ a r. r ≡ record { session = a.session; number = a.number; counts = 0 ∷ 0 ∷ a.spent ∷ [] } };

    fn from(a: Finished) -> Report {
        Report {
            session: a.session,
            number: a.number,
            counts: [0, 0, a.spent],
        }
    }
}

// Puts a call's report into the caller's memory; its number is left to answer.
pub(crate) fn keep(st: &mut [u8; 48], head: &mut [u8; 6], counts: &mut [usize; 3], r: Report) -> u8
    ensures { (result ≡ r.number) × ((st.new ≡ r.session.duplex.st) × ((head.new ≡ head_of r.session) × (counts.new ≡ r.counts))) }
{
    let Report {
        session,
        number,
        counts: told,
    } = r;
    put(st, head, session);
    *counts = told;
    number
}
