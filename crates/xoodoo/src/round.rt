// Xoodoo's state in planes, the five steps of its round, and the rounds.
ghost use Rattle.std.specs.Prelude.{◌≡◌, ◌≤◌};
ghost use Rattle.xoodoo.specs.Xoodoo as xoodoo;
ghost use Rattle.xoodoo.specs.Xoodoo.{add_planes, last_of};

// A word for each column.
#[derive(Clone, Copy)]
pub struct Plane {
    pub x0: u32,
    pub x1: u32,
    pub x2: u32,
    pub x3: u32,
}

#[derive(Clone, Copy)]
pub struct State {
    pub p0: Plane,
    pub p1: Plane,
    pub p2: Plane,
}

pub(crate) const ROUND_KEYS: [u32; 12] = [
    0x058, 0x038, 0x3c0, 0x0d0, 0x120, 0x014, 0x060, 0x02c, 0x380, 0x0f0, 0x1a0, 0x012,
];

pub(crate) fn parity(s: State) -> Plane
    ensures { result ≡ xoodoo.parity s }
{
    s.p0 ^ s.p1 ^ s.p2
}

fn effect(p: Plane) -> Plane
    ensures { result ≡ xoodoo.effect p }
{
    (p.rotate_left(5) ^ p.rotate_left(14)).up()
}

pub(crate) fn add_planes(e: Plane, s: State) -> State
    ensures { result ≡ add_planes e s }
{
    State {
        p0: s.p0 ^ e,
        p1: s.p1 ^ e,
        p2: s.p2 ^ e,
    }
}

pub(crate) fn theta(s: State) -> State
    ensures { result ≡ xoodoo.theta s }
{
    add_planes(effect(parity(s)), s)
}

pub(crate) fn rho_west(s: State) -> State
    ensures { result ≡ xoodoo.rho_west s }
{
    State {
        p1: s.p1.up(),
        p2: s.p2.rotate_left(11),
        ..s
    }
}

pub(crate) fn iota(c: u32, s: State) -> State
    ensures { result ≡ xoodoo.iota c s }
{
    State {
        p0: Plane {
            x0: s.p0.x0 ^ c,
            ..s.p0
        },
        ..s
    }
}

// Each plane gains (not the next) and the one after.
pub(crate) fn chi(s: State) -> State
    ensures { result ≡ xoodoo.chi s }
{
    State {
        p0: s.p0 ^ (!s.p1 & s.p2),
        p1: s.p1 ^ (!s.p2 & s.p0),
        p2: s.p2 ^ (!s.p0 & s.p1),
    }
}

fn rho_east(s: State) -> State
    ensures { result ≡ xoodoo.rho_east s }
{
    State {
        p1: s.p1.rotate_left(1),
        p2: s.p2.up().up().rotate_left(8),
        ..s
    }
}

fn round(c: u32, s: State) -> State
    ensures { result ≡ xoodoo.round c s }
{
    rho_east(chi(iota(c, rho_west(theta(s)))))
}

// The rounds of the last n constants.
pub(crate) fn rounds(n: usize, s: State) -> State
    requires { n ≤ 12 }
    ensures { result ≡ xoodoo.rounds (last_of n) s }
{
    let mut t = s;
    for key in &ROUND_KEYS[12 - n..] {
        t = round(*key, t);
    }
    t
}
