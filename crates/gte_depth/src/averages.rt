// NCLIP, AVSZ3 and AVSZ4.
ghost use Rattle.std.specs.Prelude.{◌≡◌, ◌+◌};
ghost use Rattle.gte_depth.specs.Depth.{winding_of, average_of};
ghost use Rattle.gte_registers.specs.Registers.{view, reads};
ghost use Rattle.gte_inputs.specs.Inputs.{inputs_of};
ghost use Rattle.gte_results.specs.AverageEffects.{winding_left, average_left};

use crate::values::{average_depth, winding};
use gte_inputs::scalars::{factor3, factor4, four_depths, three_depths};
use gte_inputs::screen::{corner0, corner1, corner2};
use gte_registers::reads::sized;
use gte_results::averages::leave_average;
use words::signed::to_bits;

// Which way round the three points on the screen stand: MAC0.
pub fn nclip(c: &mut [u32; 64])
    ensures { view c.new ≡ reads (winding_left (winding_of (inputs_of (view c.old)).sxy0 (inputs_of (view c.old)).sxy1 (inputs_of (view c.old)).sxy2) (view c.old)) }
{
    sized(c);
    let m = winding(corner0(c), corner1(c), corner2(c));
    c[24] = to_bits(m.v);
    c[63] = m.flag;
}

// OTZ for a triangle.
#[tactic(auto, using(gte_inputs::proofs::Views::inputs_view))]
pub fn avsz3(c: &mut [u32; 64])
    ensures { view c.new ≡ reads (average_left (average_of (inputs_of (view c.old)).zsf3 ((inputs_of (view c.old)).sz1 + (inputs_of (view c.old)).sz2 + (inputs_of (view c.old)).sz3)) (view c.old)) }
{
    let a = average_depth(factor3(c), three_depths(c));
    leave_average(c, a);
}

// OTZ for a quad.
#[tactic(auto, using(gte_inputs::proofs::Views::inputs_view))]
pub fn avsz4(c: &mut [u32; 64])
    ensures { view c.new ≡ reads (average_left (average_of (inputs_of (view c.old)).zsf4 ((inputs_of (view c.old)).sz0 + (inputs_of (view c.old)).sz1 + (inputs_of (view c.old)).sz2 + (inputs_of (view c.old)).sz3)) (view c.old)) }
{
    let a = average_depth(factor4(c), four_depths(c));
    leave_average(c, a);
}
