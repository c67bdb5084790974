// The causes of MVMVA, SQR and OP.
ghost use Rattle.std.specs.Prelude.{◌+◌, ◌*◌, ◌^◌, ◌≤◌};
ghost use Rattle.gte_sums.specs.Sums.{Bounded};
ghost use Rattle.gte_inputs.specs.Inputs.{inputs_of};
ghost use Rattle.gte_matrix.specs.Multiply.{far_checks, multiplied_checks, mvmva_checks};
ghost use Rattle.gte_matrix.specs.SqrOp.{square_checks, outer_checks};
ghost use Rattle.gte_rows.specs.Listing.{ListsMost};

use crate::lines::list_line_at;
use gte_arithmetic::values::{Long, Vector, Wide};
use gte_inputs::matrices::rotation;
use gte_inputs::vectors::ir;
use gte_matrix::mvmva::{chosen_long, chosen_matrix, chosen_vector, thirds};
use gte_matrix::sqr_op::diagonal_of;
use gte_rows::rows::Rows;
use gte_sums::products::{cross, squares};
use gte_sums::transform::product;

pub(crate) fn list_sqr(rows: &mut Rows<'_>, c: &[u32; 64], sf: bool, lm: bool)
    requires { rows.old.count + 45 ≤ 65536 }
    ensures { ListsMost 45 (square_checks sf lm (inputs_of c.now)) rows.old rows.new }
{
    list_line_at(rows, 1, 1, 1, 2, squares(ir(c)), sf, lm);
}

pub(crate) fn list_op(rows: &mut Rows<'_>, c: &[u32; 64], sf: bool, lm: bool)
    requires { rows.old.count + 45 ≤ 65536 }
    ensures { ListsMost 45 (outer_checks sf lm (inputs_of c.now)) rows.old rows.new }
{
    let d = diagonal_of(rotation(c));
    list_line_at(rows, 1, 1, 1, 2, cross(ir(c), d), sf, lm);
}

// MVMVA with FC: the full sum s is tested, and IR limited from the third product t.
fn list_far(rows: &mut Rows<'_>, s: Wide, t: Wide, sf: bool, lm: bool)
    requires { (rows.old.count + 45 ≤ 65536) × Bounded (3 * 2 ^ 43) t }
    ensures { ListsMost 45 (far_checks sf lm s t) rows.old rows.new }
{
    rows.list_cell(1, 1, 4, s.x, t.x, sf, lm);
    rows.list_cell(2, 2, 4, s.y, t.y, sf, lm);
    rows.list_cell(3, 3, 4, s.z, t.z, sf, lm);
}

fn list_product(
    rows: &mut Rows<'_>,
    m: [[i16; 3]; 3],
    t: Long,
    v: Vector,
    cv: u32,
    sf: bool,
    lm: bool,
)
    requires { rows.old.count + 45 ≤ 65536 }
    ensures { ListsMost 45 (multiplied_checks sf lm cv m t v) rows.old rows.new }
{
    let s = product(m, t, v);
    if cv == 2 {
        list_far(rows, s, thirds(m, v), sf, lm);
    } else {
        list_line_at(rows, 1, 2, 3, 4, s, sf, lm);
    }
}

pub(crate) fn list_mvmva(
    rows: &mut Rows<'_>,
    c: &[u32; 64],
    mx: u32,
    v: u32,
    cv: u32,
    sf: bool,
    lm: bool,
)
    requires { rows.old.count + 45 ≤ 65536 }
    ensures { ListsMost 45 (mvmva_checks sf lm mx v cv (inputs_of c.now)) rows.old rows.new }
{
    let m = chosen_matrix(c, mx);
    let t = chosen_long(c, cv);
    let x = chosen_vector(c, v);
    list_product(rows, m, t, x, cv, sf, lm);
}
