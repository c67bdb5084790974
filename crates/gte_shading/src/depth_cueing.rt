// DCPL, INTPL, DPCS and DPCT.
ghost use Rattle.std.specs.Prelude.{◌≡◌, ◌<◌};
ghost use Rattle.gte_registers.specs.Registers.{view, reads};
ghost use Rattle.gte_inputs.specs.Inputs.{inputs_of};
ghost use Rattle.gte_shading.specs.DepthCueing.{dcpl_of, intpl_of, dpcs_of, dpct_of};
ghost use Rattle.gte_results.specs.ShadeEffects.{shade_left, shades_left};

use gte_arithmetic::values::Shade;
use gte_colour::cueing::cue;
use gte_inputs::vectors::ir;
use gte_results::shades::{leave_shade, leave_shades};
use gte_sums::tones::{levels, raised, tones};

// One part of DPCT: the colour that stands in RGB0 at that part.
fn dpct_part(c: &[u32; 64], k: usize, sf: bool, lm: bool) -> Shade
    requires { k < 3 }
    ensures { result ≡ dpct_of sf lm (inputs_of c.now) k }
{
    cue(c, levels(c[k + 20]), sf, lm)
}

// RGBC times IR, mixed with the far colour.
#[tactic(auto, using(gte_inputs::proofs::Views::inputs_view, gte_colour::proofs::CueingLines::code))]
pub fn dcpl(c: &mut [u32; 64], sf: bool, lm: bool)
    ensures { view c.new ≡ reads (shade_left (dcpl_of sf lm (inputs_of (view c.old))) (view c.old)) }
{
    let code = c[6];
    let s = cue(c, tones(code, ir(c)), sf, lm);
    leave_shade(c, s);
}

// IR mixed with the far colour.
#[tactic(auto, using(gte_inputs::proofs::Views::inputs_view))]
pub fn intpl(c: &mut [u32; 64], sf: bool, lm: bool)
    ensures { view c.new ≡ reads (shade_left (intpl_of sf lm (inputs_of (view c.old))) (view c.old)) }
{
    let s = cue(c, raised(ir(c)), sf, lm);
    leave_shade(c, s);
}

// RGBC mixed with the far colour.
#[tactic(auto, using(gte_inputs::proofs::Views::inputs_view, gte_colour::proofs::CueingLines::code))]
pub fn dpcs(c: &mut [u32; 64], sf: bool, lm: bool)
    ensures { view c.new ≡ reads (shade_left (dpcs_of sf lm (inputs_of (view c.old))) (view c.old)) }
{
    let code = c[6];
    let s = cue(c, levels(code), sf, lm);
    leave_shade(c, s);
}

// DPCS of the three colours of the FIFO, each as it stands in RGB0 at its part.
#[tactic(auto, using(gte_inputs::proofs::Views::inputs_view))]
pub fn dpct(c: &mut [u32; 64], sf: bool, lm: bool)
    ensures { view c.new ≡ reads (shades_left (dpct_of sf lm (inputs_of (view c.old)) 0) (dpct_of sf lm (inputs_of (view c.old)) 1) (dpct_of sf lm (inputs_of (view c.old)) 2) (view c.old)) }
{
    let p = dpct_part(c, 0, sf, lm);
    let q = dpct_part(c, 1, sf, lm);
    let r = dpct_part(c, 2, sf, lm);
    leave_shades(c, p, q, r);
}
