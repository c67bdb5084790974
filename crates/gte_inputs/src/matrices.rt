// The three matrices that commands read.
ghost use Rattle.std.specs.Prelude.{◌≡◌, ◌<◌};
ghost use Rattle.gte_inputs.specs.Inputs.{matrix_of, inputs_of};

use words::signed::{high_half, low_half};

// The matrix whose five words begin at register b.
#[tactic(auto, unfolding(crate::specs::Inputs::matrix_of))]
fn matrix(c: &[u32; 64], b: usize) -> [[i16; 3]; 3]
    requires { b < 59 }
    ensures { result ≡ matrix_of c.now b }
{
    let (p, q, r, s, t) = (c[b], c[b + 1], c[b + 2], c[b + 3], c[b + 4]);
    [
        [low_half(p), high_half(p), low_half(q)],
        [high_half(q), low_half(r), high_half(r)],
        [low_half(s), high_half(s), low_half(t)],
    ]
}

// RT, which rotates vertices and is MVMVA's matrix 0.
#[tactic(auto, unfolding(crate::specs::Inputs::inputs_of))]
pub fn rotation(c: &[u32; 64]) -> [[i16; 3]; 3]
    ensures { result ≡ (inputs_of c.now).rt }
{
    matrix(c, 32)
}

// LLM, the directions of the three lights.
#[tactic(auto, unfolding(crate::specs::Inputs::inputs_of))]
pub fn light(c: &[u32; 64]) -> [[i16; 3]; 3]
    ensures { result ≡ (inputs_of c.now).llm }
{
    matrix(c, 40)
}

// LCM, the colours of the three lights.
#[tactic(auto, unfolding(crate::specs::Inputs::inputs_of))]
pub fn light_colour(c: &[u32; 64]) -> [[i16; 3]; 3]
    ensures { result ≡ (inputs_of c.now).lcm }
{
    matrix(c, 48)
}
