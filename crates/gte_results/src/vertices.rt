// What RTPS and RTPT write to the 64 words.
ghost use Rattle.std.specs.Prelude.{◌≡◌};
ghost use Rattle.gte_registers.specs.Registers.{view, reads};
ghost use Rattle.gte_results.specs.VertexEffects.{pushed_z, pushed_vertex, vertex_kept, vertex_left};

use crate::lines::store;
use gte_arithmetic::values::Vertex;
use gte_registers::writes::push_xy;
use words::signed::to_bits;

#[tactic(auto, unfolding(crate::specs::VertexEffects::pushed_z))]
fn push_z(c: &mut [u32; 64], z: u32)
    ensures { c.new ≡ pushed_z z c.old }
{
    c[16] = c[17];
    c[17] = c[18];
    c[18] = c[19];
    c[19] = z;
}

// The queues take a vertex.
#[tactic(auto, unfolding(crate::specs::VertexEffects::pushed_vertex))]
fn push_vertex(c: &mut [u32; 64], v: Vertex)
    ensures { c.new ≡ pushed_vertex v c.old }
{
    push_z(c, v.sz);
    push_xy(c, v.xy);
}

// The registers that a vertex leaves beside the queues.
#[tactic(auto, unfolding(crate::specs::VertexEffects::vertex_kept, crate::specs::Effects::flagged))]
fn keep_vertex(c: &mut [u32; 64], v: Vertex, flag: u32)
    ensures { c.new ≡ vertex_kept v flag c.old }
{
    c[24] = to_bits(v.mac0);
    c[8] = v.ir0;
    store(c, v.mac, v.ir);
    c[63] = flag;
}

// The depth and screen FIFOs, MAC, IR and FLAG after RTPS.
pub fn leave_vertex(c: &mut [u32; 64], v: Vertex)
    ensures { view c.new ≡ reads (vertex_left v (view c.old)) }
{
    push_vertex(c, v);
    keep_vertex(c, v, v.flag);
}

// The same after RTPT: three vertices pushed, MAC and IR of the last, and the flags of all three, which the caller gives.
pub fn leave_vertices(c: &mut [u32; 64], p: Vertex, q: Vertex, r: Vertex, flag: u32)
    ensures { view c.new ≡ reads (vertex_kept r flag (pushed_vertex r (pushed_vertex q (pushed_vertex p (view c.old))))) }
{
    push_vertex(c, p);
    push_vertex(c, q);
    push_vertex(c, r);
    keep_vertex(c, r, flag);
}
