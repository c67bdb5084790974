// NCS and NCT.
ghost use Rattle.std.specs.Prelude.{◌≡◌, ◌<◌};
ghost use Rattle.gte_registers.specs.Registers.{view, reads};
ghost use Rattle.gte_inputs.specs.Inputs.{inputs_of};
ghost use Rattle.gte_lighting.specs.Normals.{ncs_of};
ghost use Rattle.gte_results.specs.ShadeEffects.{shade_left, shades_left};

use gte_arithmetic::values::Shade;
use gte_colour::cueing::with_flag;
use gte_colour::lights::{back_sums, light_line};
use gte_colour::shade::finish_colour;
use gte_results::shades::{leave_shade, leave_shades};

// One part of NCS and NCT.
fn ncs_part(c: &[u32; 64], k: usize, sf: bool, lm: bool) -> Shade
    requires { k < 3 }
    ensures { result ≡ ncs_of sf lm (inputs_of c.now) k }
{
    let a = light_line(c, k, sf, lm);
    with_flag(a.flag, finish_colour(back_sums(c, a.ir), c[6], sf, lm))
}

// Normal colour: V0 lit.
#[tactic(auto, using(gte_inputs::proofs::Views::inputs_view))]
pub fn ncs(c: &mut [u32; 64], sf: bool, lm: bool)
    ensures { view c.new ≡ reads (shade_left (ncs_of sf lm (inputs_of (view c.old)) 0) (view c.old)) }
{
    let s = ncs_part(c, 0, sf, lm);
    leave_shade(c, s);
}

// NCS for V0, V1 and V2. Its three parts are written out, as those of NCCT, NCDT and DPCT are: for a closure that gives a part, the
// contract of one function for all four would be longer than what it spares.
#[tactic(auto, using(gte_inputs::proofs::Views::inputs_view))]
pub fn nct(c: &mut [u32; 64], sf: bool, lm: bool)
    ensures { view c.new ≡ reads (shades_left (ncs_of sf lm (inputs_of (view c.old)) 0) (ncs_of sf lm (inputs_of (view c.old)) 1) (ncs_of sf lm (inputs_of (view c.old)) 2) (view c.old)) }
{
    let p = ncs_part(c, 0, sf, lm);
    let q = ncs_part(c, 1, sf, lm);
    let r = ncs_part(c, 2, sf, lm);
    leave_shades(c, p, q, r);
}
