// Normal clipping, and the average of depths.
ghost use Rattle.std.specs.Prelude.{◌≡◌, ◌*◌, ◌^◌, pos, ◌+ℤ◌, ◌-ℤ◌, ◌*ℤ◌};
ghost use Rattle.integers.specs.Wrap.{wrap};
ghost use Rattle.gte_arithmetic.specs.Values.{mac0_flag};
ghost use Rattle.gte_depth.specs.Depth.{winding_of, average_of};

use gte_arithmetic::limits::limit_depth;
use gte_arithmetic::mac::store_mac0;
use gte_arithmetic::values::{Average, Checked, Corner};
use gte_sums::products::times;
use words::shifts::shift_down;

// NCLIP's value: six products, in the order of the formula.
pub fn winding_sum(a: Corner, b: Corner, c: Corner) -> i64
    ensures { result ≡ winding_of a b c }
{
    times(a.x, b.y) + times(b.x, c.y) + times(c.x, a.y)
        - times(a.x, c.y)
        - times(b.x, a.y)
        - times(c.x, b.y)
}

// The same, stored as MAC0.
pub(crate) fn winding(a: Corner, b: Corner, c: Corner) -> Checked<i32>
    ensures { result ≡ record { v = wrap (2 ^ 31) (winding_of a b c); flag = mac0_flag (winding_of a b c) } }
{
    store_mac0(winding_sum(a, b, c))
}

// AVSZ3's and AVSZ4's value: a scale factor times the sum of three or four depths.
pub fn weighed(zsf: i16, total: u32) -> i64
    ensures { result ≡ zsf *ℤ pos total }
{
    i64::from(zsf) * i64::from(total)
}

// MAC0 and OTZ from it.
pub(crate) fn average_depth(zsf: i16, total: u32) -> Average
    ensures { result ≡ average_of zsf total }
{
    let x = weighed(zsf, total);
    let m = store_mac0(x);
    let z = limit_depth(shift_down::<12>(x));
    Average {
        mac0: m.v,
        otz: z.v,
        flag: m.flag | z.flag,
    }
}
