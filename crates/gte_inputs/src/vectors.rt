// The vectors that commands read: V0..V2, IR1..3, and the four of 32 bits.
ghost use Rattle.std.specs.Prelude.{◌≡◌, ◌<◌};
ghost use Rattle.gte_inputs.specs.Inputs.{long_of, inputs_of, normal};

use gte_arithmetic::values::{Long, Vector};
use words::signed::{high_half, low_half, to_signed};

// V0, V1 or V2: a vertex or a normal.
pub fn vector(c: &[u32; 64], k: usize) -> Vector
    requires { k < 3 }
    ensures { result ≡ normal k (inputs_of c.now) }
{
    let xy = c[k * 2];
    let z = c[k * 2 + 1];
    Vector {
        x: low_half(xy),
        y: high_half(xy),
        z: low_half(z),
    }
}

// IR1..3, the vector that commands hand on to each other.
#[tactic(auto, unfolding(crate::specs::Inputs::inputs_of))]
pub fn ir(c: &[u32; 64]) -> Vector
    ensures { result ≡ (inputs_of c.now).ir }
{
    Vector {
        x: low_half(c[9]),
        y: low_half(c[10]),
        z: low_half(c[11]),
    }
}

// Three signed words from register b on.
#[tactic(auto, unfolding(crate::specs::Inputs::long_of))]
fn long(c: &[u32; 64], b: usize) -> Long
    requires { b < 62 }
    ensures { result ≡ long_of c.now b }
{
    Long {
        x: to_signed(c[b]),
        y: to_signed(c[b + 1]),
        z: to_signed(c[b + 2]),
    }
}

// MAC1..3, to which GPL adds.
#[tactic(auto, unfolding(crate::specs::Inputs::inputs_of))]
pub fn macs(c: &[u32; 64]) -> Long
    ensures { result ≡ (inputs_of c.now).mac }
{
    long(c, 25)
}

// TR, added to a rotated vertex.
#[tactic(auto, unfolding(crate::specs::Inputs::inputs_of))]
pub fn translation(c: &[u32; 64]) -> Long
    ensures { result ≡ (inputs_of c.now).tr }
{
    long(c, 37)
}

// BK, the light that has no direction.
#[tactic(auto, unfolding(crate::specs::Inputs::inputs_of))]
pub fn background(c: &[u32; 64]) -> Long
    ensures { result ≡ (inputs_of c.now).bk }
{
    long(c, 45)
}

// FC, which depth cueing mixes in.
#[tactic(auto, unfolding(crate::specs::Inputs::inputs_of))]
pub fn far_colour(c: &[u32; 64]) -> Long
    ensures { result ≡ (inputs_of c.now).fc }
{
    long(c, 53)
}
