// SQR and OP: one line of MAC1..3 and IR1..3.
ghost use Rattle.std.specs.Prelude.{◌≡◌};
ghost use Rattle.gte_registers.specs.Registers.{view, reads};
ghost use Rattle.gte_inputs.specs.Inputs.{inputs_of};
ghost use Rattle.gte_matrix.specs.SqrOp.{square_of, diagonal_of, outer_of};
ghost use Rattle.gte_results.specs.Effects.{line_left};

use gte_arithmetic::values::Vector;
use gte_inputs::matrices::rotation;
use gte_inputs::vectors::ir;
use gte_line::finish;
use gte_results::lines::leave_line;
use gte_sums::products::{cross, squares};

// The squares of IR1..3.
#[tactic(auto, using(gte_inputs::proofs::Views::inputs_view), unfolding(crate::specs::SqrOp::square_of, gte_line::specs::Line::line_of, gte_line::specs::Line::line_checks_at, gte_arithmetic::specs::Checks::flags))]
pub fn sqr(c: &mut [u32; 64], sf: bool, lm: bool)
    ensures { view c.new ≡ reads (line_left (square_of sf lm (inputs_of (view c.old))) (view c.old)) }
{
    let l = finish(squares(ir(c)), sf, lm);
    leave_line(c, l);
}

// RT11, RT22 and RT33.
#[tactic(auto, unfolding(crate::specs::SqrOp::diagonal_of))]
pub fn diagonal_of(m: [[i16; 3]; 3]) -> Vector
    ensures { result ≡ diagonal_of m }
{
    Vector {
        x: m[0][0],
        y: m[1][1],
        z: m[2][2],
    }
}

// The outer product of IR with the diagonal of RT.
#[tactic(auto, using(gte_inputs::proofs::Views::inputs_view), unfolding(crate::specs::SqrOp::outer_of, gte_line::specs::Line::line_of, gte_line::specs::Line::line_checks_at, gte_arithmetic::specs::Checks::flags))]
pub fn op(c: &mut [u32; 64], sf: bool, lm: bool)
    ensures { view c.new ≡ reads (line_left (outer_of sf lm (inputs_of (view c.old))) (view c.old)) }
{
    let d = diagonal_of(rotation(c));
    let l = finish(cross(ir(c), d), sf, lm);
    leave_line(c, l);
}
