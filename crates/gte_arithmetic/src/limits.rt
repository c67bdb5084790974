// One function for each kind of limit. Each gives the limited value and the bit that it sets, which the caller names
// where a command uses one kind for several registers.
ghost use Rattle.std.specs.Prelude.{◌≡◌, pos, nat_abs};
ghost use Rattle.std.specs.Int.{w16};
ghost use Rattle.std.specs.Int.RustNames.{FitsSigned};
ghost use Rattle.integers.specs.Clamp.{clamp, outside};
ghost use Rattle.gte_arithmetic.specs.Checks.{raise};
ghost use Rattle.gte_arithmetic.specs.Values.{lowest, ir_range, colour_range, depth_range, screen_range, factor_range, limit_flag, ir_of, sixteenth, colour_of, depth_of, screen_of, factor_of};

use crate::values::Checked;

// x limited to lo..hi, and the bit where that changes it.
#[tactic(auto, unfolding(integers::specs::Clamp::clamp))]
fn limit(lo: i64, hi: i64, x: i64, bit: u32) -> Checked<i64>
    ensures { result ≡ record { v = clamp lo hi x; flag = raise (outside lo hi x) bit } }
{
    if x < lo {
        Checked { v: lo, flag: bit }
    } else if hi < x {
        Checked { v: hi, flag: bit }
    } else {
        Checked { v: x, flag: 0 }
    }
}

// x limited to 0..hi, as a word.
fn limit_level(hi: u32, x: i64, bit: u32) -> Checked<u32>
    ensures { result ≡ record { v = nat_abs (clamp (pos 0) (pos hi) x); flag = raise (outside (pos 0) (pos hi) x) bit } }
{
    let l = limit(0, i64::from(hi), x, bit);
    Checked {
        v: l.v as u32,
        flag: l.flag,
    }
}

// x limited to lo..hi, in 16 bits.
fn limit_short(lo: i64, hi: i64, x: i64, bit: u32) -> Checked<i16>
    requires low { FitsSigned w16 lo }
    requires high { FitsSigned w16 hi }
    ensures { result ≡ record { v = clamp lo hi x; flag = raise (outside lo hi x) bit } }
{
    let l = limit(lo, hi, x, bit);
    Checked {
        v: l.v as i16,
        flag: l.flag,
    }
}

// The lower end of IR1..3, which lm raises to 0.
pub fn lowest_ir(lm: bool) -> i64
    ensures { result ≡ lowest lm }
{
    if lm { 0 } else { -0x8000 }
}

// IR1..3 from stored MAC, with bit 24, 23 or 22.
#[tactic(auto, unfolding(crate::specs::Values::ir_of))]
pub fn limit_ir(m: i32, lm: bool, bit: u32) -> Checked<i16>
    ensures { result ≡ record { v = ir_of lm m; flag = limit_flag (ir_range lm) m bit } }
{
    limit_short(lowest_ir(lm), 0x7fff, i64::from(m), bit)
}

// A colour from stored MAC, with bit 21, 20 or 19.
#[tactic(auto, unfolding(crate::specs::Values::colour_of))]
pub fn limit_colour(m: i32, bit: u32) -> Checked<u32>
    ensures { result ≡ record { v = colour_of m; flag = limit_flag colour_range (sixteenth m) bit } }
{
    limit_level(0xff, i64::from(m) >> 4, bit)
}

// SZ3 and OTZ, with bit 18.
#[tactic(auto, unfolding(crate::specs::Values::depth_of))]
pub fn limit_depth(z: i64) -> Checked<u32>
    ensures { result ≡ record { v = depth_of z; flag = limit_flag depth_range z 0x4_0000 } }
{
    limit_level(0xffff, z, 0x4_0000)
}

// SX and SY, with bit 14 or 13.
#[tactic(auto, unfolding(crate::specs::Values::screen_of))]
pub fn limit_screen(x: i64, bit: u32) -> Checked<i16>
    ensures { result ≡ record { v = screen_of x; flag = limit_flag screen_range x bit } }
{
    limit_short(-0x400, 0x3ff, x, bit)
}

// IR0, with bit 12.
#[tactic(auto, unfolding(crate::specs::Values::factor_of))]
pub fn limit_factor(x: i64) -> Checked<u32>
    ensures { result ≡ record { v = factor_of x; flag = limit_flag factor_range x 0x1000 } }
{
    limit_level(0x1000, x, 0x1000)
}
