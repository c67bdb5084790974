// How the colour commands end with MAC+(FC-MAC)·IR0.
ghost use Rattle.std.specs.Prelude.{◌≡◌, ◌^◌};
ghost use Rattle.gte_arithmetic.specs.Checks.{or};
ghost use Rattle.gte_sums.specs.Sums.{Bounded};
ghost use Rattle.gte_inputs.specs.Inputs.{inputs_of};
ghost use Rattle.gte_colour.specs.Cueing.{depth_cued};

use crate::shade::{finish_colour, mix};
use gte_arithmetic::values::{Shade, Wide};
use gte_inputs::scalars::ir0;
use gte_inputs::vectors::{far_colour, ir};

// A shade with further flags.
#[tactic(auto, unfolding(gte_arithmetic::specs::Checks::or))]
pub fn with_flag(f: u32, s: Shade) -> Shade
    ensures { result ≡ record { mac = s.mac; ir = s.ir; rgb = s.rgb; flag = or f s.flag } }
{
    Shade {
        flag: f | s.flag,
        ..s
    }
}

// The end with MAC+(FC-MAC)·IR0.
pub fn cue(c: &[u32; 64], t: Wide, sf: bool, lm: bool) -> Shade
    requires { Bounded (2 ^ 28) t }
    ensures { result ≡ depth_cued sf lm (inputs_of c.now) t }
{
    let m = mix(t, far_colour(c), ir0(c), sf);
    with_flag(m.flag, finish_colour(m.v, c[6], sf, lm))
}
