// GPF and GPL.
ghost use Rattle.std.specs.Prelude.{◌≡◌};
ghost use Rattle.gte_registers.specs.Registers.{view, reads};
ghost use Rattle.gte_inputs.specs.Inputs.{inputs_of};
ghost use Rattle.gte_shading.specs.Interpolation.{gpf_of, gpl_of};
ghost use Rattle.gte_results.specs.ShadeEffects.{shade_left};

use gte_arithmetic::values::Shade;
use gte_colour::shade::finish_colour;
use gte_inputs::scalars::ir0;
use gte_inputs::vectors::{ir, macs};
use gte_results::shades::leave_shade;
use gte_sums::products::{scaled, scaled_from};

fn gpf_part(c: &[u32; 64], sf: bool, lm: bool) -> Shade
    ensures { result ≡ gpf_of sf lm (inputs_of c.now) }
{
    finish_colour(scaled(ir(c), ir0(c)), c[6], sf, lm)
}

fn gpl_part(c: &[u32; 64], sf: bool, lm: bool) -> Shade
    ensures { result ≡ gpl_of sf lm (inputs_of c.now) }
{
    finish_colour(scaled_from(ir(c), ir0(c), macs(c), sf), c[6], sf, lm)
}

// IR times IR0.
#[tactic(auto, using(gte_inputs::proofs::Views::inputs_view))]
pub fn gpf(c: &mut [u32; 64], sf: bool, lm: bool)
    ensures { view c.new ≡ reads (shade_left (gpf_of sf lm (inputs_of (view c.old))) (view c.old)) }
{
    let s = gpf_part(c, sf, lm);
    leave_shade(c, s);
}

// IR times IR0, added to the MAC that stands.
#[tactic(auto, using(gte_inputs::proofs::Views::inputs_view))]
pub fn gpl(c: &mut [u32; 64], sf: bool, lm: bool)
    ensures { view c.new ≡ reads (shade_left (gpl_of sf lm (inputs_of (view c.old))) (view c.old)) }
{
    let s = gpl_part(c, sf, lm);
    leave_shade(c, s);
}
