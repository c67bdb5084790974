// The effects of an instruction carried out, but for a COP2 command. Registers, COP2 words, RAM and pad are lent; the rest of
// the state goes by value. Carries 01 "One step": loads, stores and moves of COP2, with their exceptions.

#![tactic(auto)]

ghost use Rattle.std.specs.Prelude.{List, ◌≡◌, false, ℕ, ◌%◌};
ghost use Rattle.memory.specs.Memory.{Memory, memory, MemoryOk};
ghost use Rattle.gte_registers.specs.Registers.{view, write_of};
ghost use Rattle.cpu_state.specs.State.{state};
ghost use Rattle.cpu_perform.specs.Perform.{tick, geometry_step, load_step, load_geometry_step, after_store, perform_of, passed_over};

use cpu_effects::delay::current;
use cpu_effects::jumps::{do_jump, do_link};
use cpu_effects::results::{do_next, do_product, do_system, do_wait, do_write};
use cpu_effects::traps::{fault, trap};
use cpu_execute::Effect;
use cpu_state::control::{Control, read_system, restored, user, write_system};
use gte_registers::reads::read;
use gte_registers::writes::write;
use memory::addresses::{Fault, Virt};
use memory::loads::{LoadKind, load};
use memory::stores::{StoreKind, store};

#[tactic(auto, unfolding(crate::specs::Perform::load_step))]
fn do_load(
    c: Control,
    r: &mut [u32; 32],
    ram: &[u8],
    pad: &[u8],
    k: LoadKind,
    n: usize,
    v: Virt,
) -> Control
    requires { MemoryOk (memory ram.now pad.now) }
    ensures { (g : List ℕ) → state result r.new g (memory ram.now pad.now) ≡ load_step k n v.0 (state c r.old g (memory ram.now pad.now)) }
{
    match load(k, ram, pad, v, user(c.system), current(c.pending, r, n)) {
        Ok(x) => do_wait(c, r, n, x),
        Err(Fault::Bus) => trap(c, r, 7, 0),
        Err(Fault::Address) => fault(c, r, 4, v.0),
    }
}

// What follows a store. The store itself stands in `perform`, since a function that holds all of it is large enough to stay out of
// line, and the control state would then go through memory.
fn after_store(c: Control, r: &mut [u32; 32], s: Result<(), Fault>, v: Virt) -> Control
    ensures { (g : List ℕ) (m : Memory) → state result r.new g m ≡ after_store v.0 (state c r.old g m) s }
{
    match s {
        Ok(()) => do_next(c, r),
        Err(Fault::Bus) => trap(c, r, 7, 0),
        Err(Fault::Address) => fault(c, r, 5, v.0),
    }
}

fn do_write_geometry(c: Control, r: &mut [u32; 32], g: &mut [u32; 64], n: usize, v: u32) -> Control
    ensures { (m : Memory) → state result r.new (view g.new) m ≡ geometry_step (write_of (view g.old) (n % 64) v) (state c r.old (view g.old) m) }
{
    write(g, n, v);
    do_next(c, r)
}

// LWC2.
#[tactic(auto, unfolding(crate::specs::Perform::load_geometry_step))]
fn do_load_geometry(
    c: Control,
    r: &mut [u32; 32],
    g: &mut [u32; 64],
    ram: &[u8],
    pad: &[u8],
    n: usize,
    v: Virt,
) -> Control
    requires { MemoryOk (memory ram.now pad.now) }
    ensures { state result r.new (view g.new) (memory ram.now pad.now) ≡ load_geometry_step n v.0 (state c r.old (view g.old) (memory ram.now pad.now)) }
{
    match load(LoadKind::Word, ram, pad, v, user(c.system), 0) {
        Ok(x) => do_write_geometry(c, r, g, n, x),
        Err(Fault::Bus) => trap(c, r, 7, 0),
        Err(Fault::Address) => fault(c, r, 4, v.0),
    }
}

// Every effect but a command, which is the caller's: here it changes nothing.
#[tactic(auto, unfolding(crate::specs::Perform::perform_of, crate::specs::Perform::store_step))]
pub fn perform(
    e: Effect,
    c: Control,
    r: &mut [u32; 32],
    g: &mut [u32; 64],
    ram: &mut [u8],
    pad: &mut [u8],
) -> Control
    requires { MemoryOk (memory ram.old pad.old) }
    ensures { tick false (state result r.new (view g.new) (memory ram.new pad.new)) ≡ perform_of passed_over e (state c r.old (view g.old) (memory ram.old pad.old)) }
{
    match e {
        Effect::Write(n, v) => do_write(c, r, n, v),
        Effect::Jump(t) => do_jump(c, r, t),
        Effect::Link(n, link, t) => do_link(c, r, n, link, t),
        Effect::Product(h) => do_product(c, r, h),
        Effect::Load(k, n, v) => do_load(c, r, ram, pad, k, n, v),
        Effect::Store(k, x, v) => {
            let s = store(k, ram, pad, v, user(c.system), x);
            after_store(c, r, s, v)
        }
        Effect::Trap(code) => trap(c, r, code, 0),
        Effect::ReadSystem(n, k) => do_wait(c, r, n, read_system(k, c.system)),
        Effect::WriteSystem(k, v) => do_system(c, r, write_system(k, v, c.system)),
        Effect::Restore => do_system(c, r, restored(c.system)),
        Effect::ReadGeometry(n, k) => do_wait(c, r, n, read(g, k)),
        Effect::WriteGeometry(k, v) => do_write_geometry(c, r, g, k, v),
        Effect::Command(_) => c,
        Effect::LoadGeometry(k, v) => do_load_geometry(c, r, g, ram, pad, k, v),
        Effect::StoreGeometry(k, v) => {
            let s = store(StoreKind::Word, ram, pad, v, user(c.system), read(g, k));
            after_store(c, r, s, v)
        }
    }
}
