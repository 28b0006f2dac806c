// Why a call is refused, with the number that tells it, and the checks that refuse.
ghost use Rattle.std.specs.Prelude.{◌≡◌};
ghost use Rattle.xoodyak.specs.Numbers.{first, unfinished_number, kind_number, mode_number, keyed_number, key_number, room_number, missing, tail_number, rate_number};
ghost use Rattle.xoodyak.specs.Calls.{mode};
ghost use Rattle.xoodyak.specs.Refusals.{number_of, missing_of, Tells};

use crate::Session;
use crate::feed::Kind;

// In the order of their numbers, which README lists.
#[derive(Clone, Copy, PartialEq, Eq, Debug)]
pub enum Refusal {
    // a keyed-only call meets a Hash session
    KeyRequired,
    // the key alone is too long
    LongKey,
    // the output is shorter than its result
    ShortOutput { missing: usize },
    // the rate is 0 or above the session's
    BadRate,
    // a message is unfinished, or none of this kind is begun
    Message,
    // key and key id are too long together
    LongKeyId,
    // only the nonce is too long
    LongNonce,
    // the input has no room for a tag
    NoTag,
}

impl Refusal {
    pub fn number(self) -> u8
        ensures { result ≡ number_of self }
    {
        match self {
            Refusal::KeyRequired => 1,
            Refusal::LongKey => 2,
            Refusal::ShortOutput { .. } => 3,
            Refusal::BadRate => 5,
            Refusal::Message => 7,
            Refusal::LongKeyId => 8,
            Refusal::LongNonce => 9,
            Refusal::NoTag => 10,
        }
    }

    // How many bytes the output lacks; 0 with another refusal.
    pub fn missing(self) -> usize
        ensures { result ≡ missing_of self }
    {
        match self {
            Refusal::ShortOutput { missing } => missing,
            _ => 0,
        }
    }
}

// Each length is tested against what is left, so that no sum of lengths wraps.
#[tactic(auto, using(crate::proofs::Settle::key_numbers))]
pub fn key_lengths(key: usize, id: usize, nonce: usize) -> Result<(), Refusal>
    ensures { Tells result (key_number key id nonce) 0 }
{
    if key > 43 {
        return Err(Refusal::LongKey);
    }
    let left = 43 - key;
    if id > left {
        return Err(Refusal::LongKeyId);
    }
    if nonce > left - id {
        return Err(Refusal::LongNonce);
    }
    Ok(())
}

// Whether a buffer that ends in a tag has room for one.
#[tactic(auto, using(crate::proofs::Settle::tails))]
pub(crate) fn has_tag(size: usize) -> Result<(), Refusal>
    ensures { Tells result (tail_number size) 0 }
{
    if size < 16 {
        return Err(Refusal::NoTag);
    }
    Ok(())
}

// Whether an output has room for its result.
#[tactic(auto, using(crate::proofs::Settle::rooms))]
pub(crate) fn has_room(room: usize, needed: usize) -> Result<(), Refusal>
    ensures { Tells result (room_number room needed) (missing (room_number room needed) room needed) }
{
    if room < needed {
        return Err(Refusal::ShortOutput {
            missing: needed - room,
        });
    }
    Ok(())
}

impl Session {
    // No call but feed and finish meets an unfinished message.
    #[tactic(auto, unfolding(crate::specs::Numbers::unfinished_number))]
    pub(crate) fn unbegun(self) -> Result<(), Refusal>
        ensures { Tells result (unfinished_number self) 0 }
    {
        if self.message.begun {
            return Err(Refusal::Message);
        }
        Ok(())
    }

    // A message of this kind is begun.
    #[tactic(auto, unfolding(crate::specs::Numbers::kind_number))]
    pub(crate) fn begun(self, kind: Kind) -> Result<(), Refusal>
        ensures { Tells result (kind_number kind self) 0 }
    {
        if !self.message.begun || self.message.kind != kind {
            return Err(Refusal::Message);
        }
        Ok(())
    }

    // What every keyed-only call asks first.
    #[tactic(auto, unfolding(crate::specs::Numbers::keyed_number))]
    pub(crate) fn keyed(self) -> Result<(), Refusal>
        ensures { Tells result (keyed_number self) 0 }
    {
        // 7 comes before 1
        self.unbegun()?;
        self.duplex.mode.keyed()
    }

    // A keyed call that writes a result.
    pub(crate) fn keyed_with_room(self, room: usize, needed: usize) -> Result<(), Refusal>
        ensures { Tells result (first (keyed_number self) (room_number room needed)) (missing (first (keyed_number self) (room_number room needed)) room needed) }
    {
        // 3 comes last
        self.keyed()?;
        has_room(room, needed)
    }

    // A keyed call whose buffer ends in a tag.
    pub(crate) fn keyed_with_tag(self, size: usize) -> Result<(), Refusal>
        ensures { Tells result (first (keyed_number self) (tail_number size)) 0 }
    {
        self.keyed()?;
        has_tag(size)
    }

    // A key call.
    pub(crate) fn keyed_with_lengths(
        self,
        key: usize,
        id: usize,
        nonce: usize,
    ) -> Result<(), Refusal>
        ensures { Tells result (first (keyed_number self) (key_number key id nonce)) 0 }
    {
        self.keyed()?;
        key_lengths(key, id, nonce)
    }

    // absorb_more at this rate.
    pub(crate) fn unbegun_at(self, rate: usize) -> Result<(), Refusal>
        ensures { Tells result (first (unfinished_number self) (rate_number (mode self) rate)) 0 }
    {
        self.unbegun()?;
        self.duplex.mode.takes(rate)
    }

    // A call that goes on with a message of this kind, or ends it.
    pub(crate) fn keyed_message(self, kind: Kind) -> Result<(), Refusal>
        ensures { Tells result (first (kind_number kind self) (mode_number (mode self))) 0 }
    {
        self.begun(kind)?;
        self.duplex.mode.keyed()
    }

    // The same where it writes a result.
    pub(crate) fn keyed_message_with_room(
        self,
        kind: Kind,
        room: usize,
        needed: usize,
    ) -> Result<(), Refusal>
        ensures { Tells result (first (kind_number kind self) (first (mode_number (mode self)) (room_number room needed))) (missing (first (kind_number kind self) (first (mode_number (mode self)) (room_number room needed))) room needed) }
    {
        self.keyed_message(kind)?;
        has_room(room, needed)
    }
}
