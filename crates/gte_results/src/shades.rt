// What colour commands write to the 64 words: MAC, IR, the colour FIFO and FLAG.
ghost use Rattle.std.specs.Prelude.{◌≡◌};
ghost use Rattle.gte_registers.specs.Registers.{view, reads};
ghost use Rattle.gte_results.specs.ShadeEffects.{pushed_colour, shade_left, shades_left};

use crate::lines::store;
use gte_arithmetic::values::Shade;

// The queue moves by words named here, as in `push_xy` and `push_z`: one function over a place and a length would need a clause on both,
// and be no plainer.
#[tactic(auto, unfolding(crate::specs::ShadeEffects::pushed_colour))]
fn push_colour(c: &mut [u32; 64], rgb: u32)
    ensures { c.new ≡ pushed_colour rgb c.old }
{
    c[20] = c[21];
    c[21] = c[22];
    c[22] = rgb;
}

// MAC, IR, the colour FIFO and FLAG after a colour command.
pub fn leave_shade(c: &mut [u32; 64], s: Shade)
    ensures { view c.new ≡ reads (shade_left s (view c.old)) }
{
    push_colour(c, s.rgb);
    store(c, s.mac, s.ir);
    c[63] = s.flag;
}

// The same after a triple: three colours pushed, MAC and IR of the last part, the flags of all three.
pub fn leave_shades(c: &mut [u32; 64], p: Shade, q: Shade, r: Shade)
    ensures { view c.new ≡ reads (shades_left p q r (view c.old)) }
{
    push_colour(c, p.rgb);
    push_colour(c, q.rgb);
    push_colour(c, r.rgb);
    store(c, r.mac, r.ir);
    c[63] = p.flag | (q.flag | r.flag);
}
