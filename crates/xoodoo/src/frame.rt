// The twelve rounds, quicker: a round leaves every word rotated by 24 more than it should be, which spares plane 2 its rotation.
// The next round's constant is rotated alike, and after four rounds the words are as they should be. Planes are held complemented
// by turns, which spares chi nots.
ghost use Rattle.std.specs.Prelude.{[], ◌∷◌, ◌≡◌};
ghost use Rattle.xoodoo.specs.Xoodoo as xoodoo;
ghost use Rattle.xoodoo.specs.Frame.{turned, not_one, not_two};

use crate::complement::{chi_to_one, chi_to_two, not_one};
use crate::round::{ROUND_KEYS, State, iota, rho_west, theta};

fn rho_east_turned(s: State) -> State
    ensures { result ≡ turned 24 (xoodoo.rho_east s) }
{
    State {
        p0: s.p0.rotate_left(24),
        p1: s.p1.rotate_left(25),
        p2: s.p2.up().up(),
    }
}

// These two are one line each: with chi as a parameter both would stay, for what each promises, and a third would stand beside them.
fn round_to_two(c: u32, s: State) -> State
    ensures { result ≡ not_two (turned 24 (xoodoo.round c (not_one s))) }
{
    rho_east_turned(chi_to_two(iota(c, rho_west(theta(s)))))
}

fn round_to_one(c: u32, s: State) -> State
    ensures { result ≡ not_one (turned 24 (xoodoo.round c (not_two s))) }
{
    rho_east_turned(chi_to_one(iota(c, rho_west(theta(s)))))
}

fn four_rounds(a: u32, b: u32, c: u32, d: u32, s: State) -> State
    ensures { result ≡ not_one (xoodoo.rounds (a ∷ b ∷ c ∷ d ∷ []) (not_one s)) }
{
    let t = round_to_one(b.rotate_left(24), round_to_two(a, s));
    round_to_one(d.rotate_left(8), round_to_two(c.rotate_left(16), t))
}

pub(crate) fn twelve_rounds(s: State) -> State
    ensures { result ≡ xoodoo.rounds xoodoo.constants s }
{
    let mut t = not_one(s);
    for [a, b, c, d] in ROUND_KEYS.as_chunks::<4>().0 {
        t = four_rounds(*a, *b, *c, *d, t);
    }
    not_one(t)
}
