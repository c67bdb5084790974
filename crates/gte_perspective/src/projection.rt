// One vertex projected.
ghost use Rattle.std.specs.Prelude.{◌≡◌, ◌*◌, ◌^◌, IfSome};
ghost use Rattle.integers.specs.Parts.{Mag};
ghost use Rattle.gte_sums.specs.Sums.{Bounded};
ghost use Rattle.gte_perspective.specs.Projection.{third_of, vertex_of, InFront};

use crate::screen::to_screen;
use gte_arithmetic::limits::{limit_depth, limit_ir};
use gte_arithmetic::mac::{cut, within, wrap_44};
use gte_arithmetic::values::{Camera, Long, MAC1, MAC2, Vector, Vertex, Wide};
use gte_line::finish_one;
use words::shifts::{low_signed, shift_down};

// What lines 3 and 4 give.
#[derive(Clone, Copy)]
struct Third {
    pub mac: i32,
    pub ir: i16,
    pub sz: u32,
    pub flag: u32,
}

// Lines 3 and 4, with each of their tests. IR3 sets no flag of its own: bits 22 and 18 test the 44-bit sum shifted by 12.
fn third_line_tested(x: i64, sf: bool) -> Third
    requires { Mag x (3 * 2 ^ 43) }
    ensures { result ≡ third_of sf x }
{
    let w = wrap_44(x, 0x1000_0000, 0x200_0000);
    let z = shift_down::<12>(w.v);
    let m = cut(w.v, sf);
    let i = limit_ir(m, false, 0);
    let f = limit_ir(low_signed(z), false, 0x40_0000);
    let s = limit_depth(z);
    Third {
        mac: m,
        ir: i.v,
        sz: s.v,
        flag: w.flag | (f.flag | s.flag),
    }
}

// Lines 3 and 4. With sf = 1 a depth that IR3 can hold is MAC3, IR3 and SZ3, and sets no bit.
fn third_line(x: i64, sf: bool) -> Third
    requires { Mag x (3 * 2 ^ 43) }
    ensures { result ≡ third_of sf x }
{
    if sf {
        let z = shift_down::<12>(x);
        if within(0, 0x7fff, z) {
            return Third {
                mac: z as i32,
                ir: z as i16,
                sz: z as u32,
                flag: 0,
            };
        }
    }
    third_line_tested(x, sf)
}

// All seven lines, from the three exact sums.
pub fn project(s: Wide, k: Camera, sf: bool) -> Vertex
    requires { Bounded (3 * 2 ^ 43) s }
    ensures { result ≡ vertex_of sf s k }
{
    let a = finish_one(s.x, sf, false, MAC1);
    let b = finish_one(s.y, sf, false, MAC2);
    let c = third_line(s.z, sf);
    let p = to_screen(k, c.sz, a.ir, b.ir);
    Vertex {
        mac0: p.mac0,
        mac: Long {
            x: a.mac,
            y: b.mac,
            z: c.mac,
        },
        ir0: p.ir0,
        ir: Vector {
            x: a.ir,
            y: b.ir,
            z: c.ir,
        },
        sz: c.sz,
        xy: p.xy,
        flag: a.flag | (b.flag | (c.flag | p.flag)),
    }
}

// Lines 1 to 4 with sf = 1 where they set no bit and the quotient does not overflow: x, y and z are then MAC1..3 and IR1..3, and
// sz is SZ3.
#[derive(Clone, Copy)]
pub struct Front {
    pub x: i16,
    pub y: i16,
    pub z: i16,
    pub sz: u32,
}

// One test for each value. The depth and line 5's of the quotient come first: a vertex that is too near or behind needs no more sums.
// Ranges and no `try_from`: the definitions and a must-fail edit name their ends.
pub fn in_front(s: Wide, h: u32) -> Option<Front>
    ensures { IfSome result (λ f. InFront s h f) }
{
    let depth = shift_down::<12>(s.z);
    if within(0, 0x7fff, depth) && h < 2 * (depth as u32) {
        let x = shift_down::<12>(s.x);
        if within(-0x8000, 0x7fff, x) {
            let y = shift_down::<12>(s.y);
            if within(-0x8000, 0x7fff, y) {
                return Some(Front {
                    x: x as i16,
                    y: y as i16,
                    z: depth as i16,
                    sz: depth as u32,
                });
            }
        }
    }
    None
}
