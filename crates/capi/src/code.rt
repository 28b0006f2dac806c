// The numbers by which the caller's memory holds enums and flags: 0 and 1, and no other.
ghost use Rattle.std.specs.Prelude.{◌≡◌, refl, ℕ, true, false, ltb};
ghost use Rattle.std.specs.Bool.{then_some};
ghost use Rattle.xoodyak.specs.declared.cyclist.Mode.TheVariants.{Hash, Keyed};
ghost use Rattle.xoodyak.specs.declared.cyclist.Phase.TheVariants.{Up, Down};
ghost use Rattle.xoodyak.specs.declared.Rule.TheVariants.{Crate, Specification};
ghost use Rattle.xoodyak.specs.declared.feed.Kind.TheVariants.{Seal, Open};
ghost use Rattle.capi.specs.Capi.{mode_of, phase_of, rule_of, flag_of, kind_of, mode_no, phase_no, rule_no, flag_no, kind_no, with_flags};

use xoodyak::Rule;
use xoodyak::cyclist::{Mode, Phase};
use xoodyak::feed::Kind;

// No `TryFrom<u8>`: trait and enums are other crates', and an impl must name a type of this one; xoodyak, whose enums they are, knows no numbers of C.
pub(crate) trait Code: Copy {
    ghost value: { ℕ → Self };

    ghost number: { Self → ℕ };

    fn decode(n: u8) -> Option<Self>
        ensures { result ≡ then_some (ltb n 2) (value n) };

    fn code(self) -> u8
        ensures { result ≡ number self };

    // A value's number stands for the value.
    ghost decodes: { (x : Self) → value (number x) ≡ x };
}

impl Code for Mode {
    ghost value = { mode_of };

    ghost number = { mode_no };

    fn decode(n: u8) -> Option<Self> {
        match n {
            0 => Some(Mode::Hash),
            1 => Some(Mode::Keyed),
            _ => None,
        }
    }

    fn code(self) -> u8 {
        self as u8
    }

    ghost decodes = { elim [ Hash ↦ refl | Keyed ↦ refl ] };
}

impl Code for Phase {
    ghost value = { phase_of };

    ghost number = { phase_no };

    fn decode(n: u8) -> Option<Self> {
        match n {
            0 => Some(Phase::Up),
            1 => Some(Phase::Down),
            _ => None,
        }
    }

    fn code(self) -> u8 {
        self as u8
    }

    ghost decodes = { elim [ Up ↦ refl | Down ↦ refl ] };
}

impl Code for Rule {
    ghost value = { rule_of };

    ghost number = { rule_no };

    fn decode(n: u8) -> Option<Self> {
        match n {
            0 => Some(Rule::Crate),
            1 => Some(Rule::Specification),
            _ => None,
        }
    }

    fn code(self) -> u8 {
        self as u8
    }

    ghost decodes = { elim [ Crate ↦ refl | Specification ↦ refl ] };
}

impl Code for Kind {
    ghost value = { kind_of };

    ghost number = { kind_no };

    fn decode(n: u8) -> Option<Self> {
        match n {
            0 => Some(Kind::Seal),
            1 => Some(Kind::Open),
            _ => None,
        }
    }

    fn code(self) -> u8 {
        self as u8
    }

    ghost decodes = { elim [ Seal ↦ refl | Open ↦ refl ] };
}

impl Code for bool {
    ghost value = { flag_of };

    ghost number = { flag_no };

    fn decode(n: u8) -> Option<Self> {
        match n {
            0 => Some(false),
            1 => Some(true),
            _ => None,
        }
    }

    fn code(self) -> u8 {
        u8::from(self)
    }

    ghost decodes = { elim [ false ↦ refl | true ↦ refl ] };
}

// The flags of a key call's three optional arguments.
#[tactic(auto, using(crate::proofs::Codes::decoding), unfolding(crate::specs::Capi::with_flags))]
pub(crate) fn flags(a: u8, b: u8, c: u8) -> Option<(bool, bool, bool)>
    ensures { result ≡ then_some (with_flags true a b c) (record { 0 = flag_of a; 1 = flag_of b; 2 = flag_of c }) }
{
    Some((bool::decode(a)?, bool::decode(b)?, bool::decode(c)?))
}
