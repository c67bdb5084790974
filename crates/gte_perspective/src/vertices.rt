// RTPS and RTPT.
ghost use Rattle.std.specs.Prelude.{◌≡◌, true, false, cond, ◌<◌};
ghost use Rattle.gte_registers.specs.Registers.{view};
ghost use Rattle.gte_inputs.specs.Inputs.{inputs_of};
ghost use Rattle.gte_perspective.specs.Vertices.{vertex_at, plain_of, left_of};

use crate::projection::{Front, in_front, project};
use crate::screen::{Factor, cue_factor, cue_factors, on_screen};
use gte_arithmetic::values::{Long, Vector, Vertex};
use gte_division::ratio;
use gte_inputs::matrices::rotation;
use gte_inputs::screen::camera;
use gte_inputs::vectors::{translation, vector};
use gte_results::vertices::{leave_vertex, leave_vertices};
use gte_sums::transform::product;

// One vertex, from the registers as they stand.
#[tactic(auto, unfolding(crate::specs::Vertices::rotated))]
fn vertex_at(c: &[u32; 64], k: usize, sf: bool) -> Vertex
    requires { k < 3 }
    ensures { result ≡ vertex_at sf (inputs_of c.now) k }
{
    let s = product(rotation(c), translation(c), vector(c, k));
    project(s, camera(c), sf)
}

// A vertex whose lines 1 to 6 set no bit.
fn plain(f: Front, xy: u32, d: Factor) -> Vertex
    ensures { result ≡ plain_of f xy d }
{
    Vertex {
        mac0: d.mac0,
        mac: Long {
            x: i32::from(f.x),
            y: i32::from(f.y),
            z: i32::from(f.z),
        },
        ir0: d.ir0,
        ir: Vector {
            x: f.x,
            y: f.y,
            z: f.z,
        },
        sz: f.sz,
        xy,
        flag: d.flag,
    }
}

// With sf = 1, all of RTPS (one vertex) or RTPT (three) where lines 1 to 6 set no bit; else nothing is done. The matrix is read
// once, and the three divisions stand side by side.
fn seen(c: &mut [u32; 64], three: bool) -> bool
    ensures { view c.new ≡ cond result (left_of three true (view c.old)) (view c.old) }
{
    let m = rotation(c);
    let t = translation(c);
    let k = camera(c);
    let Some(f0) = in_front(product(m, t, vector(c, 0)), k.h) else {
        return false;
    };
    if three {
        let Some(f1) = in_front(product(m, t, vector(c, 1)), k.h) else {
            return false;
        };
        let Some(f2) = in_front(product(m, t, vector(c, 2)), k.h) else {
            return false;
        };
        let q0 = ratio(k.h, f0.sz);
        let q1 = ratio(k.h, f1.sz);
        let q2 = ratio(k.h, f2.sz);
        let d = cue_factors(q0, q1, q2, k);
        let Some(p0) = on_screen(q0, k, f0) else {
            return false;
        };
        let Some(p1) = on_screen(q1, k, f1) else {
            return false;
        };
        let Some(p2) = on_screen(q2, k, f2) else {
            return false;
        };
        leave_vertices(
            c,
            plain(f0, p0, d),
            plain(f1, p1, d),
            plain(f2, p2, d),
            d.flag,
        );
    } else {
        let q = ratio(k.h, f0.sz);
        let Some(p) = on_screen(q, k, f0) else {
            return false;
        };
        leave_vertex(c, plain(f0, p, cue_factor(q, k)));
    }
    true
}

// V0 rotated, translated and projected.
#[tactic(auto, using(gte_inputs::proofs::Views::inputs_view))]
pub fn rtps(c: &mut [u32; 64], sf: bool)
    ensures { view c.new ≡ left_of false sf (view c.old) }
{
    if sf && seen(c, false) {
        return;
    }
    let v = vertex_at(c, 0, sf);
    leave_vertex(c, v);
}

// V0, V1 and V2. The three parts read nothing that one of them writes.
#[tactic(auto, using(gte_inputs::proofs::Views::inputs_view), unfolding(gte_results::specs::VertexEffects::vertices_left, gte_arithmetic::specs::Checks::or))]
pub fn rtpt(c: &mut [u32; 64], sf: bool)
    ensures { view c.new ≡ left_of true sf (view c.old) }
{
    if sf && seen(c, true) {
        return;
    }
    let p = vertex_at(c, 0, sf);
    let q = vertex_at(c, 1, sf);
    let r = vertex_at(c, 2, sf);
    leave_vertices(c, p, q, r, p.flag | (q.flag | r.flag));
}
