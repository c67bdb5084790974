// The causes of RTPS and RTPT.
ghost use Rattle.std.specs.Prelude.{◌≡◌, false, [], ◌∷◌, ◌+◌, ◌*◌, ◌^◌, ◌≤◌, ◌<◌};
ghost use Rattle.std.specs.Int.Signed.{shr_z};
ghost use Rattle.integers.specs.Parts.{Mag};
ghost use Rattle.gte_arithmetic.specs.Values.{mac_of, ir_of, depth_of, sum_checks, mac0_checks, ir_check, depth_check, screen_check, factor_check};
ghost use Rattle.gte_division.specs.Division.{ratio_of};
ghost use Rattle.gte_sums.specs.Sums.{Bounded};
ghost use Rattle.gte_inputs.specs.Inputs.{inputs_of};
ghost use Rattle.gte_perspective.specs.Perspective.{exact_of, screen_checks};
ghost use Rattle.gte_perspective.specs.Projection.{far_of, vertex_checks};
ghost use Rattle.gte_perspective.specs.Vertices.{vertex_checks_at};
ghost use Rattle.gte_rows.specs.Listing.{ListsMost};
ghost use Rattle.gte_causes.specs.Causes.{ListsParts};

use gte_arithmetic::limits::limit_depth;
use gte_arithmetic::mac::wrap_44;
use gte_arithmetic::values::{Camera, MAC1, MAC2, Wide};
use gte_division::divide;
use gte_inputs::matrices::rotation;
use gte_inputs::screen::camera;
use gte_inputs::vectors::{translation, vector};
use gte_line::finish_one;
use gte_perspective::screen::exact;
use gte_rows::rows::Rows;
use gte_sums::transform::product;
use words::shifts::shift_down;

// Line 5 or 6: MAC0, and SX or SY. Their bits are 16 at most: for a higher one nothing is tested, here and on line 7.
fn list_coordinate(rows: &mut Rows<'_>, bit: u32, line: u32, x: i64)
    requires { (rows.old.count + 15 ≤ 65536) × (bit ≤ 16) }
    ensures { ListsMost 15 (mac0_checks line x (screen_check bit line (shr_z x 65536) ∷ [])) rows.old rows.new }
{
    let coordinate = shift_down::<16>(x);
    if 16 < rows.wanted.bit {
        return;
    }
    rows.list_mac0(line, x);
    rows.list_screen(bit, line, coordinate);
}

// Line 7: MAC0 and IR0.
fn list_cue_factor(rows: &mut Rows<'_>, x: i64)
    requires { rows.old.count + 15 ≤ 65536 }
    ensures { ListsMost 15 (mac0_checks 7 x (factor_check 7 (shr_z x 4096) ∷ [])) rows.old rows.new }
{
    let factor = shift_down::<12>(x);
    if 16 < rows.wanted.bit {
        return;
    }
    rows.list_mac0(7, x);
    rows.list_factor(7, factor);
}

// The exact values of lines 5 to 7.
fn screen_sums(k: Camera, sz: u32, ir1: i16, ir2: i16) -> Wide
    requires { sz < 65536 }
    ensures { result ≡ record { x = exact_of (ratio_of k.h sz) ir1 k.ofx; y = exact_of (ratio_of k.h sz) ir2 k.ofy; z = exact_of (ratio_of k.h sz) k.dqa k.dqb } }
{
    let q = divide(k.h, sz);
    Wide {
        x: exact(q.v, ir1, k.ofx),
        y: exact(q.v, ir2, k.ofy),
        z: exact(q.v, k.dqa, k.dqb),
    }
}

// Lines 5 to 7. Bit 17 stands on line 5, the first with the quotient.
fn list_to_screen(rows: &mut Rows<'_>, k: Camera, sz: u32, ir1: i16, ir2: i16)
    requires { (rows.old.count + 50 ≤ 65536) × (sz < 65536) }
    ensures { ListsMost 50 (screen_checks k sz ir1 ir2) rows.old rows.new }
{
    let e = screen_sums(k, sz, ir1, ir2);
    rows.list_division(5, k.h, sz);
    list_coordinate(rows, 14, 5, e.x);
    list_coordinate(rows, 13, 6, e.y);
    list_cue_factor(rows, e.z);
}

// Z: the 44-bit sum shifted by 12.
fn far(x: i64) -> i64
    requires { Mag x (3 * 2 ^ 43) }
    ensures { result ≡ far_of x }
{
    let w = wrap_44(x, 0, 0);
    shift_down::<12>(w.v)
}

// Lines 3 and 4: bits 22 and 18 test Z. No bit of theirs is below 18.
fn list_third(rows: &mut Rows<'_>, x: i64)
    requires { (rows.old.count + 20 ≤ 65536) × Mag x (3 * 2 ^ 43) }
    ensures { ListsMost 20 (sum_checks 3 3 x (ir_check 3 3 false (far_of x) ∷ depth_check 4 (far_of x) ∷ [])) rows.old rows.new }
{
    let z = far(x);
    if rows.wanted.bit < 18 {
        return;
    }
    rows.list_sum(3, 3, x);
    rows.list_ir(3, 3, z, false);
    rows.list_depth(4, z);
}

// What lines 5 to 7 read of the lines before them.
#[derive(Clone, Copy)]
struct Earlier {
    pub sz: u32,
    pub ir1: i16,
    pub ir2: i16,
}

// They are worked out here by the command's own functions, and not by `project`, which becomes part of the command only as long as nothing
// else calls it.
fn first_lines(s: Wide, sf: bool) -> Earlier
    requires { Bounded (3 * 2 ^ 43) s }
    ensures is { result ≡ record { sz = depth_of (far_of s.z); ir1 = ir_of false (mac_of sf s.x); ir2 = ir_of false (mac_of sf s.y) } }
    ensures small { result.sz < 65536 }
{
    let x = finish_one(s.x, sf, false, MAC1);
    let y = finish_one(s.y, sf, false, MAC2);
    let d = limit_depth(far(s.z));
    Earlier {
        sz: d.v,
        ir1: x.ir,
        ir2: y.ir,
    }
}

// All seven lines, from the three exact sums.
fn list_projection(rows: &mut Rows<'_>, s: Wide, k: Camera, sf: bool)
    requires { (rows.old.count + 100 ≤ 65536) × Bounded (3 * 2 ^ 43) s }
    ensures { ListsMost 100 (vertex_checks sf s k) rows.old rows.new }
{
    let e = first_lines(s, sf);
    rows.list_cell(1, 1, 1, s.x, s.x, sf, false);
    rows.list_cell(2, 2, 2, s.y, s.y, sf, false);
    list_third(rows, s.z);
    list_to_screen(rows, k, e.sz, e.ir1, e.ir2);
}

// RTPS, and a part of RTPT.
pub(crate) fn list_vertex(rows: &mut Rows<'_>, c: &[u32; 64], k: usize, sf: bool)
    requires { (rows.old.count + 100 ≤ 65536) × (k < 3) }
    ensures { ListsMost 100 (vertex_checks_at sf (inputs_of c.now) k) rows.old rows.new }
{
    let s = product(rotation(c), translation(c), vector(c, k));
    list_projection(rows, s, camera(c), sf);
}

// RTPT: V0, V1 and V2.
pub(crate) fn list_rtpt(rows: &mut Rows<'_>, c: &[u32; 64], sf: bool)
    requires { rows.old.count + 585 ≤ 65536 }
    ensures { ListsParts 585 (vertex_checks_at sf (inputs_of c.now) 0 ∷ vertex_checks_at sf (inputs_of c.now) 1 ∷ vertex_checks_at sf (inputs_of c.now) 2 ∷ []) rows.old rows.new }
{
    rows.wanted.part = 1;
    list_vertex(rows, c, 0, sf);
    rows.wanted.part = 2;
    list_vertex(rows, c, 1, sf);
    rows.wanted.part = 3;
    list_vertex(rows, c, 2, sf);
}
