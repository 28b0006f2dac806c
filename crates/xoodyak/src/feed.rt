// A message handed over bit by bit: begin, feed within an allowance of permutations, finish.
ghost use Rattle.std.specs.Prelude.{◌≡◌, false, ◌++◌, ◌+◌, ◌<◌, ◌≤◌, leb, ltb, length, drop};
ghost use Rattle.xoodoo.specs.Xoodoo.{to_bytes, xoodoo};
ghost use Rattle.xoodyak.specs.Cyclist.{squeeze_out};
ghost use Rattle.xoodyak.specs.Calls.{answer_of, idle, both};
ghost use Rattle.xoodyak.specs.Feed.{is_open, ups_before, place_in, block_for, close_block, open_block, run_end, run_out, feed, end_block, end_ups, ended, past_tag, finish_ups, fed_of, finished_of, begin_of, feed_of, finish_seal_of, finish_open_of};

use crate::bytes::{copy_into, xor_into};
use crate::cyclist::{Duplex, Phase};
use crate::tag::Tag;
use crate::words::Lent;
use crate::{Answer, Rule, Session};
use xoodoo::round::State;
use xoodoo::words::{Block, Six, permute_words, to_words};

// What a message is handed over for.
#[derive(Clone, Copy, PartialEq, Eq)]
pub enum Kind {
    Seal,
    Open,
}

// A message that may be unfinished: the place is 0 before its first byte, then the number of bytes in its last block. A flag beside
// kind and place, not an Option: the C interface's head hands back the kind and place of a message that is not begun.
#[derive(Clone, Copy)]
pub struct Message {
    pub begun: bool,
    pub kind: Kind,
    pub place: u8,
}

// What a feed hands back: the session, 0 or the number of the refusal, with 3 how many bytes the output lacks, the bytes taken
// and the permutations spent. A number, as in an `Answer`.
#[derive(Clone, Copy)]
pub struct Fed {
    pub session: Session,
    pub number: u8,
    pub missing: usize,
    pub taken: usize,
    pub spent: usize,
}

// What a finish hands back; the tag is that of what was sealed, and zeros otherwise. A number, as in an `Answer`.
#[derive(Clone, Copy)]
pub struct Finished {
    pub session: Session,
    pub number: u8,
    pub tag: Tag,
    pub spent: usize,
}

// Where a feed stands.
#[derive(Clone, Copy)]
struct Progress {
    duplex: Duplex,
    place: usize,
    taken: usize,
    spent: usize,
}

impl Message {
    pub(crate) fn idle() -> Message
        ensures { result ≡ idle }
    {
        Message {
            begun: false,
            kind: Kind::Seal,
            place: 0,
        }
    }
}

fn is_open(place: usize) -> bool
    ensures { result ≡ is_open place }
{
    0 < place && place < 24
}

fn ups_before(fits: bool) -> usize
    ensures { result ≡ ups_before fits }
{
    if fits { 0 } else { 1 }
}

fn place_in(fits: bool, place: usize) -> usize
    ensures { result ≡ place_in fits place }
{
    if fits { place } else { 0 }
}

// Whether a byte is left and the allowance has the Up that it needs.
fn goes_on(fits: bool, left: usize, allowance: usize) -> bool
    ensures { result ≡ both (ltb 0 left) (leb (ups_before fits) allowance) }
{
    0 < left && (fits || 1 <= allowance)
}

impl Duplex {
    fn close_block(self, place: usize) -> Self
        ensures { result ≡ close_block place self }
    {
        let mut st = self.st;
        st[place.min(24)] ^= 1;
        Duplex {
            st,
            phase: Phase::Down,
            ..self
        }
    }

    fn open_block(self, place: usize) -> Self
        ensures { result ≡ open_block place self }
    {
        if place == 0 {
            self.up(0x80)
        } else {
            self.close_block(place).up(0)
        }
    }

    // A run of bytes inside one block. Kind, place, out and piece stay four: of what a struct lends as `&mut`, a proof knows less.
    fn run(self, kind: Kind, place: usize, out: &mut [u8], piece: &[u8]) -> Self
        requires { (length piece.now ≡ length out.old) × (place + length piece.now ≤ 24) }
        ensures value { result ≡ run_end kind place self piece.now }
        ensures out_after { out.new ≡ run_out kind place self piece.now }
    {
        let mut st = self.st;
        let e = place + piece.len();
        copy_into(out, piece);
        xor_into(out, &st[place..e]);
        match kind {
            Kind::Seal => xor_into(&mut st[place..e], piece),
            Kind::Open => xor_into(&mut st[place..e], out),
        }
        Duplex { st, ..self }
    }

    // The words that the Up before a block permutes, where no block is open.
    fn before_block(self, place: usize) -> State
        requires { is_open place ≡ false }
        ensures { xoodoo (to_bytes result) ≡ (open_block place self).st }
    {
        if place == 0 {
            return self.coloured(0x80);
        }
        Six::pad(to_words(&self.st))
    }

    // A whole block, in words from its Up on.
    fn whole_block(self, kind: Kind, place: usize, out: &mut [u8], piece: &[u8]) -> Self
        requires { (length out.old ≡ 24) × (length piece.now ≡ 24) × (is_open place ≡ false) }
        ensures value { result ≡ run_end kind 0 (open_block place self) piece.now }
        ensures out_after { out.new ≡ run_out kind 0 (open_block place self) piece.now }
    {
        let v = permute_words(self.before_block(place));
        let x = Six::get(piece);
        let u = x.add(v);
        let y = Six::front(u);
        y.put(out);
        let after = match kind {
            Kind::Seal => u,
            Kind::Open => y.add(v),
        };
        Duplex::after_up(after, self.mode)
    }

    // A run of bytes inside one block, which is begun first where none is open.
    fn stretch(self, kind: Kind, place: usize, out: &mut [u8], piece: &[u8]) -> Self
        requires { (length piece.now ≡ length out.old) × (place_in (is_open place) place + length piece.now ≤ 24) }
        ensures value { result ≡ run_end kind (place_in (is_open place) place) (block_for (is_open place) place self) piece.now }
        ensures out_after { out.new ≡ run_out kind (place_in (is_open place) place) (block_for (is_open place) place self) piece.now }
    {
        let fits = is_open(place);
        let n = piece.len();
        if n == Six::SIZE {
            return self.whole_block(kind, place, out, piece);
        }
        if fits {
            return self.run(kind, place, out, piece);
        }
        self.open_block(place).run(kind, 0, out, piece)
    }

    // Run by run, each inside one block, while the allowance has the Up that the next byte needs.
    fn feed(
        self,
        kind: Kind,
        place: usize,
        out: &mut [u8],
        piece: &[u8],
        allowance: usize,
    ) -> Progress
        requires { (length piece.now ≤ length out.old) × (place < 256) }
        ensures duplex_value { (result.duplex ≡ (feed kind allowance place self piece.now).duplex) × ((result.place ≡ (feed kind allowance place self piece.now).place) × ((result.taken ≡ length (feed kind allowance place self piece.now).bytes) × (result.spent ≡ (feed kind allowance place self piece.now).spent))) }
        ensures place_bound { result.place < 256 }
        ensures out_after { out.new ≡ (feed kind allowance place self piece.now).bytes ++ drop (length (feed kind allowance place self piece.now).bytes) out.old }
    {
        let n = piece.len();
        let mut at = Progress {
            duplex: self,
            place,
            taken: 0,
            spent: 0,
        };
        // No iterator cuts these runs: how long the next is, and whether there is one, hangs on what the turn before left.
        'runs: while goes_on(is_open(at.place), n - at.taken, allowance - at.spent) {
            let fits = is_open(at.place);
            let q = place_in(fits, at.place);
            let i = at.taken;
            let e = i + (24 - q).min(n - i);
            at = Progress {
                duplex: at
                    .duplex
                    .stretch(kind, at.place, &mut out[i..e], &piece[i..e]),
                place: q + (e - i),
                taken: e,
                spent: at.spent + ups_before(fits),
            };
        }
        at
    }

    // The end of a message.
    fn end_block(self, rule: Rule, place: usize) -> Self
        ensures { result ≡ end_block rule place self }
    {
        match (place, rule) {
            (0, Rule::Crate) => self,
            (0, Rule::Specification) => self.empty_block(),
            _ => self.close_block(place),
        }
    }
}

fn end_ups(rule: Rule, place: usize) -> usize
    ensures { result ≡ end_ups rule place }
{
    match (place, rule) {
        (0, Rule::Crate) => 0,
        (0, Rule::Specification) => 1,
        _ => 0,
    }
}

impl Answer {
    // The same with the bytes that a feed took.
    fn fed(self, taken: usize) -> Fed
        ensures { result ≡ record { session = self.session; number = self.number; missing = self.missing; taken = taken; spent = self.spent } }
    {
        Fed {
            session: self.session,
            number: self.number,
            missing: self.missing,
            taken,
            spent: self.spent,
        }
    }

    // The same with the tag of a finish, which lacks no bytes.
    fn finished(self, tag: Tag) -> Finished
        ensures { result ≡ record { session = self.session; number = self.number; tag = tag; spent = self.spent } }
    {
        Finished {
            session: self.session,
            number: self.number,
            tag,
            spent: self.spent,
        }
    }
}

impl Session {
    // The permutations of a finish: the end's, and one for the tag.
    fn finish_ups(self) -> usize
        ensures { result ≡ finish_ups self }
    {
        end_ups(self.rule, self.message.place as usize) + 1
    }

    // Past the tag, squeezed into a lent part of 16 bytes, with the message over.
    fn past_tag(self, out: &mut [u8]) -> Session
        requires { length out.old ≡ 16 }
        ensures value { result ≡ past_tag self }
        ensures out_after { out.new ≡ squeeze_out (ended self) 16 0x40 }
    {
        let duplex = self
            .duplex
            .end_block(self.rule, self.message.place as usize)
            .squeeze_any(out, 0x40);
        Session {
            duplex,
            message: Message::idle(),
            ..self
        }
    }

    pub fn begin(self, kind: Kind) -> Answer
        ensures { result ≡ answer_of (begin_of kind self) }
    {
        if let Err(refusal) = self.keyed() {
            return self.refused(refusal);
        }
        let begun = Session {
            message: Message {
                begun: true,
                kind,
                place: 0,
            },
            ..self
        };
        begun.paid(0, 0)
    }

    pub fn feed(self, kind: Kind, out: &mut [u8], piece: &[u8], allowance: usize) -> Fed
        ensures value { result ≡ fed_of (feed_of kind self out.old piece.now allowance) }
        ensures out_after { out.new ≡ (feed_of kind self out.old piece.now allowance).bytes }
    {
        if let Err(refusal) = self.keyed_message_with_room(kind, out.len(), piece.len()) {
            return self.refused(refusal).fed(0);
        }
        let f = self
            .duplex
            .feed(kind, self.message.place as usize, out, piece, allowance);
        let after = Session {
            duplex: f.duplex,
            message: Message {
                begun: true,
                kind,
                place: f.place as u8,
            },
            ..self
        };
        after.paid(0, f.spent).fed(f.taken)
    }

    // Sealing's end hands out the tag.
    pub fn finish_seal(self) -> Finished
        ensures { result ≡ finished_of (finish_seal_of self) }
    {
        let mut tag = [0u8; 16];
        if let Err(refusal) = self.keyed_message(Kind::Seal) {
            return self.refused(refusal).finished(Tag::from_bytes(tag));
        }
        let spent = self.finish_ups();
        let s = self.past_tag(&mut tag);
        s.paid(0, spent).finished(Tag::from_bytes(tag))
    }

    // Opening's end compares the tag: 0, or 4 with the session past the tag all the same.
    pub fn finish_open(self, tag: Tag) -> Finished
        ensures { result ≡ finished_of (finish_open_of self tag) }
    {
        if let Err(refusal) = self.keyed_message(Kind::Open) {
            return self.refused(refusal).finished(Tag::default());
        }
        let spent = self.finish_ups();
        let mut computed = [0u8; 16];
        let s = self.past_tag(&mut computed);
        let number = Tag::from_bytes(computed).verify(tag.bytes);
        s.paid(number, spent).finished(Tag::default())
    }
}
