// MAC1..3 and IR1..3 written to the 64 words; what MVMVA, SQR and OP leave.
ghost use Rattle.std.specs.Prelude.{◌≡◌};
ghost use Rattle.gte_registers.specs.Registers.{view, reads};
ghost use Rattle.gte_results.specs.Effects.{stored, line_left};

use gte_arithmetic::values::{Line, Long, Vector};
use words::signed::to_bits;

// MAC1..3 and IR1..3, which every command but NCLIP and the averages writes.
#[tactic(auto, unfolding(crate::specs::Effects::stored))]
pub(crate) fn store(c: &mut [u32; 64], m: Long, i: Vector)
    ensures { c.new ≡ stored m i c.old }
{
    c[25] = to_bits(m.x);
    c[26] = to_bits(m.y);
    c[27] = to_bits(m.z);
    c[9] = to_bits(i32::from(i.x));
    c[10] = to_bits(i32::from(i.y));
    c[11] = to_bits(i32::from(i.z));
}

// MAC, IR and FLAG after MVMVA, SQR and OP.
pub fn leave_line(c: &mut [u32; 64], l: Line)
    ensures { view c.new ≡ reads (line_left l (view c.old)) }
{
    store(c, l.mac, l.ir);
    c[63] = l.flag;
}
