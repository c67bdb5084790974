// NCDS and NCDT.
ghost use Rattle.std.specs.Prelude.{◌≡◌, ◌<◌};
ghost use Rattle.gte_registers.specs.Registers.{view, reads};
ghost use Rattle.gte_inputs.specs.Inputs.{inputs_of};
ghost use Rattle.gte_lighting.specs.NormalCueing.{ncds_of};
ghost use Rattle.gte_results.specs.ShadeEffects.{shade_left, shades_left};

use gte_arithmetic::values::Shade;
use gte_colour::cueing::{cue, with_flag};
use gte_colour::lights::normal_line;
use gte_results::shades::{leave_shade, leave_shades};
use gte_sums::tones::tones;

fn ncds_part(c: &[u32; 64], k: usize, sf: bool, lm: bool) -> Shade
    requires { k < 3 }
    ensures { result ≡ ncds_of sf lm (inputs_of c.now) k }
{
    let b = normal_line(c, k, sf, lm);
    with_flag(b.flag, cue(c, tones(c[6], b.ir), sf, lm))
}

// Normal colour depth cue: V0 lit, times RGBC, mixed with the far colour.
#[tactic(auto, using(gte_inputs::proofs::Views::inputs_view))]
pub fn ncds(c: &mut [u32; 64], sf: bool, lm: bool)
    ensures { view c.new ≡ reads (shade_left (ncds_of sf lm (inputs_of (view c.old)) 0) (view c.old)) }
{
    let s = ncds_part(c, 0, sf, lm);
    leave_shade(c, s);
}

// NCDS for V0, V1 and V2.
#[tactic(auto, using(gte_inputs::proofs::Views::inputs_view))]
pub fn ncdt(c: &mut [u32; 64], sf: bool, lm: bool)
    ensures { view c.new ≡ reads (shades_left (ncds_of sf lm (inputs_of (view c.old)) 0) (ncds_of sf lm (inputs_of (view c.old)) 1) (ncds_of sf lm (inputs_of (view c.old)) 2) (view c.old)) }
{
    let p = ncds_part(c, 0, sf, lm);
    let q = ncds_part(c, 1, sf, lm);
    let r = ncds_part(c, 2, sf, lm);
    leave_shades(c, p, q, r);
}
