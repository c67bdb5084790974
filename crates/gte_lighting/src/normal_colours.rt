// NCCS and NCCT.
ghost use Rattle.std.specs.Prelude.{◌≡◌, ◌<◌};
ghost use Rattle.gte_registers.specs.Registers.{view, reads};
ghost use Rattle.gte_inputs.specs.Inputs.{inputs_of};
ghost use Rattle.gte_lighting.specs.NormalColours.{nccs_of};
ghost use Rattle.gte_results.specs.ShadeEffects.{shade_left, shades_left};

use gte_arithmetic::values::Shade;
use gte_colour::cueing::with_flag;
use gte_colour::lights::normal_line;
use gte_colour::shade::finish_colour;
use gte_results::shades::{leave_shade, leave_shades};
use gte_sums::tones::tones;

fn nccs_part(c: &[u32; 64], k: usize, sf: bool, lm: bool) -> Shade
    requires { k < 3 }
    ensures { result ≡ nccs_of sf lm (inputs_of c.now) k }
{
    let b = normal_line(c, k, sf, lm);
    with_flag(b.flag, finish_colour(tones(c[6], b.ir), c[6], sf, lm))
}

// Normal colour colour: V0 lit, times RGBC.
#[tactic(auto, using(gte_inputs::proofs::Views::inputs_view))]
pub fn nccs(c: &mut [u32; 64], sf: bool, lm: bool)
    ensures { view c.new ≡ reads (shade_left (nccs_of sf lm (inputs_of (view c.old)) 0) (view c.old)) }
{
    let s = nccs_part(c, 0, sf, lm);
    leave_shade(c, s);
}

// NCCS for V0, V1 and V2.
#[tactic(auto, using(gte_inputs::proofs::Views::inputs_view))]
pub fn ncct(c: &mut [u32; 64], sf: bool, lm: bool)
    ensures { view c.new ≡ reads (shades_left (nccs_of sf lm (inputs_of (view c.old)) 0) (nccs_of sf lm (inputs_of (view c.old)) 1) (nccs_of sf lm (inputs_of (view c.old)) 2) (view c.old)) }
{
    let p = nccs_part(c, 0, sf, lm);
    let q = nccs_part(c, 1, sf, lm);
    let r = nccs_part(c, 2, sf, lm);
    leave_shades(c, p, q, r);
}
