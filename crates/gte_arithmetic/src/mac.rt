// MAC1..3 and MAC0: an exact value is tested, wrapped, shifted and stored.
ghost use Rattle.std.specs.Prelude.{◌≡◌, not, ◌*◌, ◌^◌};
ghost use Rattle.std.specs.Int.Signed.{shr_z};
ghost use Rattle.integers.specs.Parts.{Mag};
ghost use Rattle.integers.specs.Wrap.{wrap};
ghost use Rattle.integers.specs.Clamp.{outside};
ghost use Rattle.gte_arithmetic.specs.Values.{scale, sum_flag, mac0_flag, mac_of};

use crate::values::Checked;
use words::shifts::{low_signed, shift_down};

// x lies in lo..hi.
pub fn within(lo: i64, hi: i64, x: i64) -> bool
    ensures { result ≡ not (outside lo hi x) }
{
    lo <= x && x <= hi
}

// The 44-bit test of a whole sum, and its wrap.
#[tactic(auto, using(crate::proofs::Wraps::arms), unfolding(crate::specs::Values::sum_flag))]
pub fn wrap_44(x: i64, over: u32, under: u32) -> Checked<i64>
    requires { Mag x (3 * 2 ^ 43) }
    ensures { result ≡ record { v = wrap (2 ^ 43) x; flag = sum_flag over under x } }
{
    if x < -0x800_0000_0000 {
        Checked {
            v: x + 0x1000_0000_0000,
            flag: under,
        }
    } else if 0x7ff_ffff_ffff < x {
        Checked {
            v: x - 0x1000_0000_0000,
            flag: over,
        }
    } else {
        Checked { v: x, flag: 0 }
    }
}

// sf = 1 divides by 1000h.
pub fn shift(x: i64, sf: bool) -> i64
    ensures { result ≡ shr_z x (scale sf) }
{
    if sf { shift_down::<12>(x) } else { x }
}

// A 44-bit value shifted by 12·sf, and its low 32 bits.
pub fn cut(x: i64, sf: bool) -> i32
    ensures { result ≡ wrap (2 ^ 31) (shr_z x (scale sf)) }
{
    low_signed(shift(x, sf))
}

// MAC1..3: a whole sum tested, wrapped, shifted and stored.
#[tactic(auto, unfolding(crate::specs::Values::mac_of))]
pub fn store_mac(x: i64, sf: bool, over: u32, under: u32) -> Checked<i32>
    requires { Mag x (3 * 2 ^ 43) }
    ensures { result ≡ record { v = mac_of sf x; flag = sum_flag over under x } }
{
    let w = wrap_44(x, over, under);
    Checked {
        v: cut(w.v, sf),
        flag: w.flag,
    }
}

// MAC0: tested against 32 signed bits, its low 32 bits stored.
#[tactic(auto, using(crate::proofs::Flags::or_none, crate::proofs::Flags::none_or), unfolding(crate::specs::Values::mac0_flag))]
pub fn store_mac0(x: i64) -> Checked<i32>
    ensures { result ≡ record { v = wrap (2 ^ 31) x; flag = mac0_flag x } }
{
    let v = low_signed(x);
    let flag = if x < -0x8000_0000 {
        0x8000
    } else if 0x7fff_ffff < x {
        0x1_0000
    } else {
        0
    };
    Checked { v, flag }
}
