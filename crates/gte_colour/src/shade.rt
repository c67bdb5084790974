// The last lines of the colour commands.
ghost use Rattle.std.specs.Prelude.{◌≡◌, ◌*◌, ◌^◌, ◌≤◌, pos, ◌+ℤ◌, ◌-ℤ◌, ◌*ℤ◌};
ghost use Rattle.integers.specs.Parts.{Mag};
ghost use Rattle.gte_arithmetic.specs.Checks.{or};
ghost use Rattle.gte_arithmetic.specs.Values.{colour_range, limit_flag, mac_of, ir_of, sixteenth, colour_of};
ghost use Rattle.gte_sums.specs.Sums.{Bounded};
ghost use Rattle.gte_line.specs.Line.{cell_of};
ghost use Rattle.gte_colour.specs.Shade.{farther, mixed_of, colour_word, shade_of};

use gte_arithmetic::limits::limit_colour;
use gte_arithmetic::values::{Checked, Long, MAC1, MAC2, MAC3, MacBits, Shade, Vector, Wide};
use gte_line::{finish, finish_one};
use gte_sums::products::times;

// One of three colours.
#[derive(Clone, Copy)]
struct Channel {
    pub mac: i32,
    pub ir: i16,
    pub colour: u32,
    pub flag: u32,
}

fn away_one(fc: i32, b: i64) -> i64
    requires { Mag b (2 ^ 28) }
    ensures is { result ≡ fc *ℤ pos 4096 -ℤ b }
    ensures small { Mag result (3 * 2 ^ 43) }
{
    i64::from(fc) * 4096 - b
}

// FC-MAC, exact.
pub fn away(fc: Long, s: Wide) -> Wide
    requires { Bounded (2 ^ 28) s }
    ensures is { result ≡ farther fc s }
    ensures small { Bounded (3 * 2 ^ 43) result }
{
    Wide {
        x: away_one(fc.x, s.x),
        y: away_one(fc.y, s.y),
        z: away_one(fc.z, s.z),
    }
}

fn toward_one(ir: i16, f: i16, b: i64) -> i64
    requires { Mag b (2 ^ 28) }
    ensures is { result ≡ ir *ℤ f +ℤ b }
    ensures small { Mag result (3 * 2 ^ 43) }
{
    times(ir, f) + b
}

// The interpolation with the far colour.
pub fn mix(s: Wide, fc: Long, f: i16, sf: bool) -> Checked<Wide>
    requires { Bounded (2 ^ 28) s }
    ensures is { result ≡ mixed_of sf fc f s }
    ensures small { Bounded (3 * 2 ^ 43) result.v }
{
    let l = finish(away(fc, s), sf, false);
    Checked {
        v: Wide {
            x: toward_one(l.ir.x, f, s.x),
            y: toward_one(l.ir.y, f, s.y),
            z: toward_one(l.ir.z, f, s.z),
        },
        flag: l.flag,
    }
}

fn channel_of(x: i64, sf: bool, lm: bool, bits: MacBits, cut: u32) -> Channel
    requires { Mag x (3 * 2 ^ 43) }
    ensures is { result ≡ record { mac = mac_of sf x; ir = ir_of lm (mac_of sf x); colour = colour_of (mac_of sf x); flag = or (cell_of sf lm bits.over bits.under bits.ir x).flag (limit_flag colour_range (sixteenth (mac_of sf x)) cut) } }
    ensures small { result.colour ≤ 255 }
{
    let m = finish_one(x, sf, lm, bits);
    let c = limit_colour(m.mac, cut);
    Channel {
        mac: m.mac,
        ir: m.ir,
        colour: c.v,
        flag: m.flag | c.flag,
    }
}

#[tactic(auto, unfolding(crate::specs::Shade::colour_word))]
fn pack(r: u32, g: u32, b: u32, code: u32) -> u32
    requires { (r ≤ 255) × (g ≤ 255) × (b ≤ 255) }
    ensures { result ≡ colour_word r g b code }
{
    r + g * 256 + b * 65536 + code / 0x100_0000 * 0x100_0000
}

// MAC stored, the colours and IR limited from it.
pub fn finish_colour(s: Wide, code: u32, sf: bool, lm: bool) -> Shade
    requires { Bounded (3 * 2 ^ 43) s }
    ensures { result ≡ shade_of sf lm code s }
{
    let r = channel_of(s.x, sf, lm, MAC1, 0x20_0000);
    let g = channel_of(s.y, sf, lm, MAC2, 0x10_0000);
    let b = channel_of(s.z, sf, lm, MAC3, 0x8_0000);
    Shade {
        mac: Long {
            x: r.mac,
            y: g.mac,
            z: b.mac,
        },
        ir: Vector {
            x: r.ir,
            y: g.ir,
            z: b.ir,
        },
        rgb: pack(r.colour, g.colour, b.colour, code),
        flag: r.flag | (g.flag | b.flag),
    }
}
