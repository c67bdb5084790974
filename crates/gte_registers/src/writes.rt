// Registers as MTC2, CTC2 and LWC2 write them.
ghost use Rattle.std.specs.Prelude.{◌≡◌, ◌%◌, ◌<◌, set};
ghost use Rattle.gte_registers.specs.Registers.{view, write_of, pushed_xy, spread_fields};

// The screen queue takes a point.
#[tactic(auto, unfolding(crate::specs::Registers::pushed_xy))]
pub fn push_xy(c: &mut [u32; 64], xy: u32)
    ensures { c.new ≡ pushed_xy xy c.old }
{
    c[12] = c[13];
    c[13] = c[14];
    c[14] = xy;
}

// Each IR takes its field by 80h.
#[tactic(auto, unfolding(crate::specs::Registers::spread_fields))]
fn spread_fields(c: &mut [u32; 64], x: u32)
    ensures { c.new ≡ spread_fields x c.old }
{
    c[9] = x % 32 * 128;
    c[10] = x / 32 % 32 * 128;
    c[11] = x / 1024 % 32 * 128;
}

fn put(c: &mut [u32; 64], k: usize, x: u32)
    requires { k < 64 }
    ensures { c.new ≡ set c.old k x }
{
    c[k] = x;
}

// A write of x to register i.
pub fn write(c: &mut [u32; 64], i: usize, x: u32)
    ensures { view c.new ≡ write_of (view c.old) (i % 64) x }
{
    let k = i % 64;
    match k {
        7 | 29 | 31 => {}
        15 => push_xy(c, x),
        28 => spread_fields(c, x),
        _ => put(c, k, x),
    }
}
