// CC and CDP.
ghost use Rattle.std.specs.Prelude.{◌≡◌};
ghost use Rattle.gte_registers.specs.Registers.{view, reads};
ghost use Rattle.gte_inputs.specs.Inputs.{inputs_of};
ghost use Rattle.gte_shading.specs.Shading.{cc_of, cdp_of};
ghost use Rattle.gte_results.specs.ShadeEffects.{shade_left};

use gte_arithmetic::values::Shade;
use gte_colour::cueing::{cue, with_flag};
use gte_colour::lights::back_sums;
use gte_colour::shade::finish_colour;
use gte_inputs::vectors::ir;
use gte_line::finish;
use gte_results::shades::leave_shade;
use gte_sums::tones::tones;

fn cc_part(c: &[u32; 64], sf: bool, lm: bool) -> Shade
    ensures { result ≡ cc_of sf lm (inputs_of c.now) }
{
    let b = finish(back_sums(c, ir(c)), sf, lm);
    with_flag(b.flag, finish_colour(tones(c[6], b.ir), c[6], sf, lm))
}

fn cdp_part(c: &[u32; 64], sf: bool, lm: bool) -> Shade
    ensures { result ≡ cdp_of sf lm (inputs_of c.now) }
{
    let b = finish(back_sums(c, ir(c)), sf, lm);
    with_flag(b.flag, cue(c, tones(c[6], b.ir), sf, lm))
}

// Colour colour: IR as a light, times RGBC.
#[tactic(auto, using(gte_inputs::proofs::Views::inputs_view))]
pub fn cc(c: &mut [u32; 64], sf: bool, lm: bool)
    ensures { view c.new ≡ reads (shade_left (cc_of sf lm (inputs_of (view c.old))) (view c.old)) }
{
    let s = cc_part(c, sf, lm);
    leave_shade(c, s);
}

// CC, mixed with the far colour.
#[tactic(auto, using(gte_inputs::proofs::Views::inputs_view))]
pub fn cdp(c: &mut [u32; 64], sf: bool, lm: bool)
    ensures { view c.new ≡ reads (shade_left (cdp_of sf lm (inputs_of (view c.old))) (view c.old)) }
{
    let s = cdp_part(c, sf, lm);
    leave_shade(c, s);
}
