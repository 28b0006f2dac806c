// The inverse of each step of the round, and the rounds taken back.
ghost use Rattle.std.specs.Prelude.{◌≡◌, ◌<◌, ◌≤◌};
ghost use Rattle.xoodoo.specs.Xoodoo as xoodoo;
ghost use Rattle.xoodoo.specs.Xoodoo.{unrho_west, unrho_east, last_of};
ghost use Rattle.xoodoo.specs.Frame.{not_one, not_two};

use crate::complement::{chi_to_one, chi_to_two, not_one};
use crate::round::{Plane, ROUND_KEYS, State, add_planes, chi, iota, parity};

fn spread(i: u32, j: u32, p: Plane) -> Plane
    requires { (0 < i) × (i < 32) × (0 < j) × (j < 32) }
    ensures { result ≡ xoodoo.spread i j p }
{
    p.rotate_left(i) ^ p.rotate_left(j)
}

// The parity before theta, from the one after it. The definition's last three steps together add rotations by 0, 4, 8, 12 and 20.
fn unparity(p: Plane) -> Plane
    ensures { result ≡ xoodoo.unparity p }
{
    let a = p ^ spread(5, 14, p).up();
    let b = a ^ spread(10, 28, a).up().up();
    let c = b ^ b.rotate_left(4);
    let d = c ^ c.rotate_left(8);
    d ^ b.rotate_left(20)
}

// Theta is undone on the parity alone.
fn untheta(s: State) -> State
    ensures { result ≡ xoodoo.untheta s }
{
    let p = parity(s);
    add_planes(p ^ unparity(p), s)
}

fn unrho_west(s: State) -> State
    ensures { result ≡ unrho_west s }
{
    State {
        p1: s.p1.up().up().up(),
        p2: s.p2.rotate_left(21),
        ..s
    }
}

fn unrho_east(s: State) -> State
    ensures { result ≡ unrho_east s }
{
    State {
        p1: s.p1.rotate_left(31),
        p2: s.p2.up().up().rotate_left(24),
        ..s
    }
}

// The three from here on are one line each: with chi as a parameter all would stay, for what each promises, and a fourth beside them.
fn unround(c: u32, s: State) -> State
    ensures { result ≡ xoodoo.unround c s }
{
    untheta(unrho_west(iota(c, chi(unrho_east(s)))))
}

// With planes held complemented, as the quick rounds have them.
fn unround_to_two(c: u32, s: State) -> State
    ensures { result ≡ not_two (xoodoo.unround c (not_one s)) }
{
    untheta(unrho_west(iota(c, chi_to_two(unrho_east(s)))))
}

fn unround_to_one(c: u32, s: State) -> State
    ensures { result ≡ not_one (xoodoo.unround c (not_two s)) }
{
    untheta(unrho_west(iota(c, chi_to_one(unrho_east(s)))))
}

// All twelve rounds taken back, quicker.
pub(crate) fn twelve_unrounds(s: State) -> State
    ensures { result ≡ xoodoo.unrounds xoodoo.constants s }
{
    let mut t = not_one(s);
    for [a, b] in ROUND_KEYS.as_chunks::<2>().0.iter().rev() {
        t = unround_to_one(*a, unround_to_two(*b, t));
    }
    not_one(t)
}

// The rounds of the last n constants taken back.
pub(crate) fn unrounds(n: usize, s: State) -> State
    requires { n ≤ 12 }
    ensures { result ≡ xoodoo.unrounds (last_of n) s }
{
    let mut t = s;
    for key in ROUND_KEYS[12 - n..].iter().rev() {
        t = unround(*key, t);
    }
    t
}
