// Exact values of colours and IR. Each comes with a bound, so that the lines after it know that no 64-bit sum wraps.
ghost use Rattle.std.specs.Prelude.{◌≡◌, ◌*◌, ◌^◌, ◌<◌, pos, ◌*ℤ◌};
ghost use Rattle.integers.specs.Parts.{Mag};
ghost use Rattle.gte_sums.specs.Sums.{Bounded};
ghost use Rattle.gte_sums.specs.Tones.{tones_of, levels_of, raised_of};

use gte_arithmetic::values::{Vector, Wide};

// A colour byte times IR, by 16.
fn tone(r: u8, ir: i16) -> i64
    ensures is { result ≡ pos r *ℤ ir *ℤ pos 16 }
    ensures small { Mag result (2 ^ 28) }
{
    i64::from(r) * i64::from(ir) * 16
}

// R.IR1, G.IR2 and B.IR3, by 16.
#[tactic(auto, unfolding(crate::specs::Tones::tones_of))]
pub fn tones(rgb: u32, i: Vector) -> Wide
    ensures is { result ≡ tones_of rgb i }
    ensures small { Bounded (2 ^ 28) result }
{
    let [r, g, b, _] = rgb.to_le_bytes();
    Wide {
        x: tone(r, i.x),
        y: tone(g, i.y),
        z: tone(b, i.z),
    }
}

// A colour byte by 65,536.
fn level(r: u8) -> i64
    ensures is { result ≡ pos (r * 65536) }
    ensures small { Mag result (2 ^ 28) }
{
    i64::from(r) * 65536
}

// R, G and B by 10000h (DPCS, DPCT).
#[tactic(auto, unfolding(crate::specs::Tones::levels_of))]
pub fn levels(rgb: u32) -> Wide
    ensures is { result ≡ levels_of rgb }
    ensures small { Bounded (2 ^ 28) result }
{
    let [r, g, b, _] = rgb.to_le_bytes();
    Wide {
        x: level(r),
        y: level(g),
        z: level(b),
    }
}

// IR by 1000h (INTPL).
#[tactic(auto, unfolding(crate::specs::Tones::raised_of))]
pub fn raised(i: Vector) -> Wide
    ensures is { result ≡ raised_of i }
    ensures small { Bounded (2 ^ 28) result }
{
    Wide {
        x: i64::from(i.x) * 4096,
        y: i64::from(i.y) * 4096,
        z: i64::from(i.z) * 4096,
    }
}
