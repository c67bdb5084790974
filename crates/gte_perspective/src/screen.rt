// Lines 5 to 7 of one vertex: from the depth and two IR to the screen.
ghost use Rattle.std.specs.Prelude.{◌≡◌, true, ◌*◌, ◌^◌, ◌<◌, IfSome};
ghost use Rattle.gte_perspective.specs.Perspective.{exact_of, pair_of, coordinate_of, cue_of, cue_at, last_cue, on_screen, Shown};

use crate::projection::Front;
use gte_arithmetic::limits::{limit_factor, limit_screen};
use gte_arithmetic::mac::{store_mac0, within};
use gte_arithmetic::values::{Camera, Checked};
use gte_division::divide;
use words::shifts::shift_down;

// What lines 5 to 7 give.
#[derive(Clone, Copy)]
pub struct Screen {
    pub mac0: i32,
    pub xy: u32,
    pub ir0: u32,
    pub flag: u32,
}

// What line 7 gives.
#[derive(Clone, Copy)]
pub struct Factor {
    pub mac0: i32,
    pub ir0: u32,
    pub flag: u32,
}

// Two signed halves in one word.
#[tactic(auto, unfolding(crate::specs::Perspective::pair_of))]
fn pair(x: i16, y: i16) -> u32
    ensures { result ≡ pair_of x y }
{
    u32::from(x.cast_unsigned()) + u32::from(y.cast_unsigned()) * 0x1_0000
}

// The quotient times a factor, plus an offset.
#[tactic(auto, unfolding(crate::specs::Perspective::exact_of))]
pub fn exact(q: u32, k: i16, b: i32) -> i64
    requires { q < 2 ^ 17 }
    ensures { result ≡ exact_of q k b }
{
    i64::from(q) * i64::from(k) + i64::from(b)
}

// Line 5 or 6, with each of its tests: MAC0 is tested, and the coordinate limited from its exact value.
#[tactic(auto, unfolding(gte_arithmetic::specs::Checks::or))]
fn coordinate_tested(x: i64, bit: u32) -> Checked<i16>
    ensures { result ≡ coordinate_of x bit }
{
    let m = store_mac0(x);
    let s = limit_screen(shift_down::<16>(x), bit);
    Checked {
        v: s.v,
        flag: m.flag | s.flag,
    }
}

// Line 5 or 6. Most points lie on the screen, where one test finds that no bit is set.
fn coordinate(q: u32, ir: i16, offset: i32, bit: u32) -> Checked<i16>
    requires { q < 2 ^ 17 }
    ensures { result ≡ coordinate_of (exact_of q ir offset) bit }
{
    let x = exact(q, ir, offset);
    let s = shift_down::<16>(x);
    if within(-0x400, 0x3ff, s) {
        return Checked {
            v: s as i16,
            flag: 0,
        };
    }
    coordinate_tested(x, bit)
}

// Line 7, with each of its tests: the MAC0 that stays, and IR0.
#[tactic(auto, unfolding(gte_arithmetic::specs::Checks::or))]
fn cue_factor_tested(x: i64) -> Factor
    ensures { result ≡ cue_of x }
{
    let m = store_mac0(x);
    let f = limit_factor(shift_down::<12>(x));
    Factor {
        mac0: m.v,
        ir0: f.v,
        flag: m.flag | f.flag,
    }
}

// Line 7. An IR0 in range comes from a MAC0 that needs no test.
pub fn cue_factor(q: u32, k: Camera) -> Factor
    requires { q < 2 ^ 17 }
    ensures { result ≡ cue_at q k }
{
    let x = exact(q, k.dqa, k.dqb);
    let f = shift_down::<12>(x);
    if within(0, 0x1000, f) {
        return Factor {
            mac0: x as i32,
            ir0: f as u32,
            flag: 0,
        };
    }
    cue_factor_tested(x)
}

// Lines 5 to 7.
pub fn to_screen(k: Camera, sz: u32, ir1: i16, ir2: i16) -> Screen
    requires { sz < 65536 }
    ensures { result ≡ on_screen k sz ir1 ir2 }
{
    let q = divide(k.h, sz);
    let x = coordinate(q.v, ir1, k.ofx, 0x4000);
    let y = coordinate(q.v, ir2, k.ofy, 0x2000);
    let d = cue_factor(q.v, k);
    Screen {
        mac0: d.mac0,
        xy: pair(x.v, y.v),
        ir0: d.ir0,
        flag: q.flag | (x.flag | (y.flag | d.flag)),
    }
}

// Lines 5 and 6 where they set no bit: SX and SY in one word. One test for each coordinate.
pub fn on_screen(q: u32, k: Camera, f: Front) -> Option<u32>
    requires { q < 2 ^ 17 }
    ensures { IfSome result (λ xy. Shown q k f.x f.y xy) }
{
    let x = shift_down::<16>(exact(q, f.x, k.ofx));
    if within(-0x400, 0x3ff, x) {
        let y = shift_down::<16>(exact(q, f.y, k.ofy));
        if within(-0x400, 0x3ff, y) {
            return Some(pair(x as i16, y as i16));
        }
    }
    None
}

// Whether line 7 sets no bit.
fn cue_clear(q: u32, k: Camera) -> bool
    requires { q < 2 ^ 17 }
    ensures { result ≡ true → (cue_at q k).flag ≡ 0 }
{
    within(0, 0x1000, shift_down::<12>(exact(q, k.dqa, k.dqb)))
}

// The same of two vertices.
fn both_clear(p: u32, q: u32, k: Camera) -> bool
    requires { (p < 2 ^ 17) × (q < 2 ^ 17) }
    ensures { result ≡ true → ((cue_at p k).flag ≡ 0) × ((cue_at q k).flag ≡ 0) }
{
    cue_clear(p, k) && cue_clear(q, k)
}

// Line 7 of three vertices: what the last one leaves, and the flags of all.
#[tactic(auto, unfolding(gte_arithmetic::specs::Checks::or))]
pub fn cue_factors(p: u32, q: u32, r: u32, k: Camera) -> Factor
    requires { (p < 2 ^ 17) × (q < 2 ^ 17) × (r < 2 ^ 17) }
    ensures { result ≡ last_cue (cue_at p k) (cue_at q k) (cue_at r k) }
{
    let d = cue_factor(r, k);
    if both_clear(p, q, k) {
        d
    } else {
        let a = cue_factor(p, k);
        let b = cue_factor(q, k);
        Factor {
            flag: a.flag | (b.flag | d.flag),
            ..d
        }
    }
}
