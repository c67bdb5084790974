// What AVSZ3 and AVSZ4 write to the 64 words.
ghost use Rattle.std.specs.Prelude.{◌≡◌};
ghost use Rattle.gte_registers.specs.Registers.{view, reads};
ghost use Rattle.gte_results.specs.AverageEffects.{average_left};

use gte_arithmetic::values::Average;
use words::signed::to_bits;

// MAC0, OTZ and FLAG after AVSZ3 and AVSZ4.
pub fn leave_average(c: &mut [u32; 64], a: Average)
    ensures { view c.new ≡ reads (average_left a (view c.old)) }
{
    c[24] = to_bits(a.mac0);
    c[7] = a.otz;
    c[63] = a.flag;
}
