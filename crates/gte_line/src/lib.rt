// One line of a command: MAC1..3 stored from three exact values, and IR1..3 limited from them. Carries 01 "GTE arithmetic":
// bits 30..22.

#![tactic(auto)]

ghost use Rattle.std.specs.Prelude.{◌≡◌, ◌*◌, ◌^◌};
ghost use Rattle.integers.specs.Parts.{Mag};
ghost use Rattle.gte_sums.specs.Sums.{Bounded};
ghost use Rattle.gte_line.specs.Line.{cell_of, line_of};

use gte_arithmetic::limits::{limit_ir, lowest_ir};
use gte_arithmetic::mac::{shift, store_mac, within};
use gte_arithmetic::values::{Line, Long, MAC1, MAC2, MAC3, MacBits, Vector, Wide};

// One of the three MAC and IR of a line, with the FLAG bits of their tests.
#[derive(Clone, Copy)]
pub struct Cell {
    pub mac: i32,
    pub ir: i16,
    pub flag: u32,
}

// One of the three, with each of its tests.
#[tactic(auto, unfolding(crate::specs::Line::cell_of, gte_arithmetic::specs::Checks::or))]
fn finish_tested(x: i64, sf: bool, lm: bool, bits: MacBits) -> Cell
    requires { Mag x (3 * 2 ^ 43) }
    ensures { result ≡ cell_of sf lm bits.over bits.under bits.ir x }
{
    let m = store_mac(x, sf, bits.over, bits.under);
    let i = limit_ir(m.v, lm, bits.ir);
    Cell {
        mac: m.v,
        ir: i.v,
        flag: m.flag | i.flag,
    }
}

// One of the three. Most values are in range, where one test finds that no bit is set.
pub fn finish_one(x: i64, sf: bool, lm: bool, bits: MacBits) -> Cell
    requires { Mag x (3 * 2 ^ 43) }
    ensures { result ≡ cell_of sf lm bits.over bits.under bits.ir x }
{
    let m = shift(x, sf);
    if within(lowest_ir(lm), 0x7fff, m) {
        Cell {
            mac: m as i32,
            ir: m as i16,
            flag: 0,
        }
    } else {
        finish_tested(x, sf, lm, bits)
    }
}

// A whole line: three sums, each with its own bits of FLAG.
pub fn finish(s: Wide, sf: bool, lm: bool) -> Line
    requires { Bounded (3 * 2 ^ 43) s }
    ensures { result ≡ line_of sf lm s }
{
    let a = finish_one(s.x, sf, lm, MAC1);
    let b = finish_one(s.y, sf, lm, MAC2);
    let c = finish_one(s.z, sf, lm, MAC3);
    Line {
        mac: Long {
            x: a.mac,
            y: b.mac,
            z: c.mac,
        },
        ir: Vector {
            x: a.ir,
            y: b.ir,
            z: c.ir,
        },
        flag: a.flag | b.flag | c.flag,
    }
}
