// Chi with four nots for its twelve: plane 0 is held complemented, and after every other chi plane 1 too. Nothing else in a round
// tells a complemented plane from a plain one.
ghost use Rattle.std.specs.Prelude.{◌≡◌};
ghost use Rattle.xoodoo.specs.Xoodoo as xoodoo;
ghost use Rattle.xoodoo.specs.Frame.{not_one, not_two};

use crate::round::State;

pub(crate) fn not_one(s: State) -> State
    ensures { result ≡ not_one s }
{
    State { p0: !s.p0, ..s }
}

// From plane 0 complemented to planes 0 and 1. Each chi has operators of its own, so no one function serves two.
pub(crate) fn chi_to_two(s: State) -> State
    ensures { result ≡ not_two (xoodoo.chi (not_one s)) }
{
    State {
        p0: s.p0 ^ (!s.p1 & s.p2),
        p1: s.p1 ^ (s.p2 | s.p0),
        p2: s.p2 ^ (s.p0 & s.p1),
    }
}

// And back.
pub(crate) fn chi_to_one(s: State) -> State
    ensures { result ≡ not_one (xoodoo.chi (not_two s)) }
{
    State {
        p0: s.p0 ^ (s.p1 & s.p2),
        p1: s.p1 ^ (s.p2 | s.p0),
        p2: s.p2 ^ (!s.p1 & s.p0),
    }
}
