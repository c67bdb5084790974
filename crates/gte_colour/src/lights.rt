// The lines that the normal colour commands begin with, and BK·1000h + LCM.IR.
ghost use Rattle.std.specs.Prelude.{◌≡◌, ◌<◌, ◌*◌, ◌^◌};
ghost use Rattle.gte_line.specs.Line.{line_of};
ghost use Rattle.gte_inputs.specs.Inputs.{inputs_of};
ghost use Rattle.gte_colour.specs.Lights.{light_sums, normal_line, back_sums};
ghost use Rattle.gte_sums.specs.Sums.{Bounded};

use gte_arithmetic::values::{Line, Long, Vector, Wide};
use gte_inputs::matrices::{light, light_colour};
use gte_inputs::vectors::{background, vector};
use gte_line::finish;
use gte_sums::transform::product;

// BK·1000h + LCM.IR.
#[tactic(auto, unfolding(crate::specs::Lights::back_sums))]
pub fn back_sums(c: &[u32; 64], v: Vector) -> Wide
    ensures is { result ≡ back_sums (inputs_of c.now) v }
    ensures small { Bounded (3 * 2 ^ 43) result }
{
    product(light_colour(c), background(c), v)
}

// LLM.V.
#[tactic(auto, unfolding(crate::specs::Lights::light_sums))]
pub fn light_sums(c: &[u32; 64], k: usize) -> Wide
    requires { k < 3 }
    ensures is { result ≡ light_sums (inputs_of c.now) k }
    ensures small { Bounded (3 * 2 ^ 43) result }
{
    product(light(c), Long { x: 0, y: 0, z: 0 }, vector(c, k))
}

// Line 1 of the normal colour commands: LLM.V.
pub fn light_line(c: &[u32; 64], k: usize, sf: bool, lm: bool) -> Line
    requires { k < 3 }
    ensures { result ≡ line_of sf lm (light_sums (inputs_of c.now) k) }
{
    finish(light_sums(c, k), sf, lm)
}

// Lines 1 and 2 of NCCS and NCDS: IR is what line 2 leaves, the flags are those of both lines.
pub fn normal_line(c: &[u32; 64], k: usize, sf: bool, lm: bool) -> Line
    requires { k < 3 }
    ensures { result ≡ normal_line sf lm (inputs_of c.now) k }
{
    let a = light_line(c, k, sf, lm);
    let b = finish(back_sums(c, a.ir), sf, lm);
    Line {
        flag: a.flag | b.flag,
        ..b
    }
}
