// MVMVA: one line of MAC1..3 and IR1..3.
ghost use Rattle.std.specs.Prelude.{◌≡◌, ◌*◌, ◌^◌};
ghost use Rattle.gte_sums.specs.Sums.{Bounded};
ghost use Rattle.gte_registers.specs.Registers.{view, reads};
ghost use Rattle.gte_inputs.specs.Inputs.{inputs_of};
ghost use Rattle.gte_matrix.specs.Multiply.{odd_matrix, matrix_by, vector_by, long_by, thirds_of, sum_flags, far_of, multiplied_of, mvmva_of};
ghost use Rattle.gte_results.specs.Effects.{line_left};

use gte_arithmetic::mac::wrap_44;
use gte_arithmetic::values::{Line, Long, MAC1, MAC2, MAC3, Vector, Wide};
use gte_inputs::matrices::{light, light_colour, rotation};
use gte_inputs::scalars::ir0;
use gte_inputs::vectors::{background, far_colour, ir, translation, vector};
use gte_line::finish;
use gte_results::lines::leave_line;
use gte_sums::products::times;
use gte_sums::transform::product;

// The matrix of mx = 3: constants, IR0, RT13 and RT22.
#[tactic(auto, unfolding(crate::specs::Multiply::odd_matrix))]
fn odd_matrix(m: [[i16; 3]; 3], f: i16) -> [[i16; 3]; 3]
    ensures { result ≡ odd_matrix m f }
{
    let a = m[0][2];
    let b = m[1][1];
    [[-0x60, 0x60, f], [a, a, a], [b, b, b]]
}

// RT, LLM, LCM or matrix 3, by mx.
#[tactic(auto, unfolding(crate::specs::Multiply::matrix_by))]
pub fn chosen_matrix(c: &[u32; 64], mx: u32) -> [[i16; 3]; 3]
    ensures { result ≡ matrix_by mx (inputs_of c.now) }
{
    match mx {
        0 => rotation(c),
        1 => light(c),
        2 => light_colour(c),
        _ => odd_matrix(rotation(c), ir0(c)),
    }
}

// V0, V1, V2 or IR, by v.
#[tactic(auto, unfolding(crate::specs::Multiply::vector_by))]
pub fn chosen_vector(c: &[u32; 64], v: u32) -> Vector
    ensures { result ≡ vector_by v (inputs_of c.now) }
{
    match v {
        0 => vector(c, 0),
        1 => vector(c, 1),
        2 => vector(c, 2),
        _ => ir(c),
    }
}

// TR, BK, FC or zeros, by cv.
#[tactic(auto, unfolding(crate::specs::Multiply::long_by))]
pub fn chosen_long(c: &[u32; 64], cv: u32) -> Long
    ensures { result ≡ long_by cv (inputs_of c.now) }
{
    match cv {
        0 => translation(c),
        1 => background(c),
        2 => far_colour(c),
        _ => Long { x: 0, y: 0, z: 0 },
    }
}

// The third product of each row.
#[tactic(auto, unfolding(crate::specs::Multiply::thirds_of))]
pub fn thirds(m: [[i16; 3]; 3], v: Vector) -> Wide
    ensures is { result ≡ thirds_of m v }
    ensures small { Bounded (2 ^ 43) result }
{
    Wide {
        x: times(m[0][2], v.z),
        y: times(m[1][2], v.z),
        z: times(m[2][2], v.z),
    }
}

// The flags of the three sums, and nothing stored.
fn sum_flags(s: Wide) -> u32
    requires { Bounded (3 * 2 ^ 43) s }
    ensures { result ≡ sum_flags s }
{
    let a = wrap_44(s.x, MAC1.over, MAC1.under);
    let b = wrap_44(s.y, MAC2.over, MAC2.under);
    let d = wrap_44(s.z, MAC3.over, MAC3.under);
    a.flag | (b.flag | d.flag)
}

// MVMVA with FC: the full sum sets bits 30..25, and the third product is stored.
fn multiply_far(m: [[i16; 3]; 3], t: Long, v: Vector, sf: bool, lm: bool) -> Line
    ensures { result ≡ far_of sf lm m t v }
{
    let f = sum_flags(product(m, t, v));
    let l = finish(thirds(m, v), sf, lm);
    Line {
        flag: f | l.flag,
        ..l
    }
}

#[tactic(auto, unfolding(crate::specs::Multiply::multiplied_of, gte_line::specs::Line::line_of, gte_line::specs::Line::line_checks_at, gte_arithmetic::specs::Checks::flags))]
fn multiply(m: [[i16; 3]; 3], t: Long, v: Vector, cv: u32, sf: bool, lm: bool) -> Line
    ensures { result ≡ multiplied_of sf lm cv m t v }
{
    if cv == 2 {
        multiply_far(m, t, v, sf, lm)
    } else {
        finish(product(m, t, v), sf, lm)
    }
}

// T·1000h + M.V with the matrix, vector and translation of the command's bits.
#[tactic(auto, using(gte_inputs::proofs::Views::inputs_view), unfolding(crate::specs::Multiply::mvmva_of))]
pub fn mvmva(c: &mut [u32; 64], mx: u32, v: u32, cv: u32, sf: bool, lm: bool)
    ensures { view c.new ≡ reads (line_left (mvmva_of sf lm mx v cv (inputs_of (view c.old))) (view c.old)) }
{
    let m = chosen_matrix(c, mx);
    let t = chosen_long(c, cv);
    let x = chosen_vector(c, v);
    leave_line(c, multiply(m, t, x, cv, sf, lm));
}
