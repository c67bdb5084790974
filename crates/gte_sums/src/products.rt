// Exact products. Each comes with a bound, so that the lines after it know that no 64-bit sum wraps.
ghost use Rattle.std.specs.Prelude.{◌≡◌, ◌+◌, ◌*◌, ◌^◌, pos, ◌+ℤ◌, ◌-ℤ◌, ◌*ℤ◌};
ghost use Rattle.integers.specs.Parts.{Mag};
ghost use Rattle.gte_sums.specs.Sums.{Bounded};
ghost use Rattle.gte_arithmetic.specs.Values.{scale};
ghost use Rattle.gte_sums.specs.Products.{scaled_of, scaled_from, squares_of, cross_of};

use gte_arithmetic::values::{Long, Vector, Wide};

// The product of two signed halves.
pub fn times(a: i16, b: i16) -> i64
    ensures is { result ≡ a *ℤ b }
    ensures small { Mag result (2 ^ 30 + 1) }
{
    i64::from(a) * i64::from(b)
}

// IR.IR0 (GPF).
#[tactic(auto, unfolding(crate::specs::Products::scaled_of))]
pub fn scaled(i: Vector, f: i16) -> Wide
    ensures is { result ≡ scaled_of i f }
    ensures small { Bounded (3 * 2 ^ 43) result }
{
    Wide {
        x: times(i.x, f),
        y: times(i.y, f),
        z: times(i.z, f),
    }
}

// A product, plus a stored MAC by 2^(12·sf).
fn times_from(a: i16, b: i16, m: i32, sf: bool) -> i64
    ensures is { result ≡ a *ℤ b +ℤ m *ℤ pos (scale sf) }
    ensures small { Mag result (3 * 2 ^ 43) }
{
    let p = times(a, b);
    let m = i64::from(m);
    if sf { p + m * 4096 } else { p + m }
}

// IR.IR0 plus the stored MAC, shifted back up by 12·sf (GPL).
#[tactic(auto, unfolding(crate::specs::Products::scaled_from))]
pub fn scaled_from(i: Vector, f: i16, m: Long, sf: bool) -> Wide
    ensures is { result ≡ scaled_from i f m sf }
    ensures small { Bounded (3 * 2 ^ 43) result }
{
    Wide {
        x: times_from(i.x, f, m.x, sf),
        y: times_from(i.y, f, m.y, sf),
        z: times_from(i.z, f, m.z, sf),
    }
}

// IR.IR (SQR).
#[tactic(auto, unfolding(crate::specs::Products::squares_of))]
pub fn squares(i: Vector) -> Wide
    ensures is { result ≡ squares_of i }
    ensures small { Bounded (3 * 2 ^ 43) result }
{
    Wide {
        x: times(i.x, i.x),
        y: times(i.y, i.y),
        z: times(i.z, i.z),
    }
}

// A difference of two products.
fn times_less(a: i16, b: i16, c: i16, d: i16) -> i64
    ensures is { result ≡ a *ℤ b -ℤ c *ℤ d }
    ensures small { Mag result (3 * 2 ^ 43) }
{
    times(a, b) - times(c, d)
}

// The outer product of IR with D (OP).
#[tactic(auto, unfolding(crate::specs::Products::cross_of))]
pub fn cross(i: Vector, d: Vector) -> Wide
    ensures is { result ≡ cross_of i d }
    ensures small { Bounded (3 * 2 ^ 43) result }
{
    Wide {
        x: times_less(i.z, d.y, i.y, d.z),
        y: times_less(i.x, d.z, i.z, d.x),
        z: times_less(i.y, d.x, i.x, d.y),
    }
}
