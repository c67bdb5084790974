// Exact sums over a chosen matrix.
ghost use Rattle.std.specs.Prelude.{◌≡◌, ◌*◌, ◌^◌, ◌<◌, pos, ◌+ℤ◌, ◌*ℤ◌};
ghost use Rattle.integers.specs.Parts.{Mag};
ghost use Rattle.gte_sums.specs.Sums.{row_of, product_of, Bounded};

use crate::products::times;
use gte_arithmetic::values::{Long, Vector, Wide};

// T·1000h and three products, exact.
fn add_row(t: i32, a: i16, b: i16, c: i16, x: i16, y: i16, z: i16) -> i64
    ensures is { result ≡ t *ℤ pos 4096 +ℤ a *ℤ x +ℤ b *ℤ y +ℤ c *ℤ z }
    ensures small { Mag result (3 * 2 ^ 43) }
{
    i64::from(t) * 4096 + times(a, x) + times(b, y) + times(c, z)
}

#[tactic(auto, unfolding(crate::specs::Sums::row_of))]
fn row(m: [[i16; 3]; 3], i: usize, t: i32, v: Vector) -> i64
    requires { i < 3 }
    ensures is { result ≡ row_of m i t v }
    ensures small { Mag result (3 * 2 ^ 43) }
{
    add_row(t, m[i][0], m[i][1], m[i][2], v.x, v.y, v.z)
}

// A translation by 1000h plus a matrix times a vector.
#[tactic(auto, unfolding(crate::specs::Sums::product_of))]
pub fn product(m: [[i16; 3]; 3], t: Long, v: Vector) -> Wide
    ensures is { result ≡ product_of m t v }
    ensures small { Bounded (3 * 2 ^ 43) result }
{
    Wide {
        x: row(m, 0, t.x, v),
        y: row(m, 1, t.y, v),
        z: row(m, 2, t.z, v),
    }
}
