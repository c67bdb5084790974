// What the effects that stay inside the processor, but for jumps, do to the control state and the 32 registers that the caller lends.
ghost use Rattle.std.specs.Prelude.{◌≡◌, ℕ, List};
ghost use Rattle.memory.specs.Memory.{Memory};
ghost use Rattle.cpu_state.specs.State.{state};
ghost use Rattle.cpu_effects.specs.Effects.{next_step, write_step, product_step, system_step, wait_step};

use crate::delay::{land, land_unless, to_wait, write_register};
use crate::flow::go_on;
use cpu_alu::mul_div::HiLo;
use cpu_state::control::{Control, System};

// An instruction that changes nothing in the processor itself: stores, writes to COP2, commands.
#[tactic(auto, unfolding(crate::specs::Effects::next_step))]
pub fn do_next(c: Control, r: &mut [u32; 32]) -> Control
    ensures { (g : List ℕ) (m : Memory) → state result r.new g m ≡ next_step (state c r.old g m) }
{
    land(c.pending, r);
    go_on(c)
}

// A result that shows at once. It comes after the landing, so it drops a value that waits for its register.
#[tactic(auto, unfolding(crate::specs::Effects::write_step))]
pub fn do_write(c: Control, r: &mut [u32; 32], n: usize, v: u32) -> Control
    ensures { (g : List ℕ) (m : Memory) → state result r.new g m ≡ write_step n v (state c r.old g m) }
{
    land(c.pending, r);
    write_register(r, n, v);
    go_on(c)
}

// A new HI and LO: multiplication, division, MTHI, MTLO.
#[tactic(auto, unfolding(crate::specs::Effects::product_step))]
pub fn do_product(c: Control, r: &mut [u32; 32], h: HiLo) -> Control
    ensures { (g : List ℕ) (m : Memory) → state result r.new g m ≡ product_step h (state c r.old g m) }
{
    land(c.pending, r);
    Control {
        product: h,
        ..go_on(c)
    }
}

// A new Cop0 state: MTC0 and RFE.
#[tactic(auto, unfolding(crate::specs::Effects::system_step))]
pub fn do_system(c: Control, r: &mut [u32; 32], s: System) -> Control
    ensures { (g : List ℕ) (m : Memory) → state result r.new g m ≡ system_step s (state c r.old g m) }
{
    land(c.pending, r);
    Control {
        system: s,
        ..go_on(c)
    }
}

// A result that shows one instruction late: loads, MFC0, MFC2, CFC2.
#[tactic(auto, unfolding(crate::specs::Effects::wait_step))]
pub fn do_wait(c: Control, r: &mut [u32; 32], n: usize, v: u32) -> Control
    ensures { (g : List ℕ) (m : Memory) → state result r.new g m ≡ wait_step n v (state c r.old g m) }
{
    land_unless(c.pending, r, n);
    Control {
        pending: to_wait(n, v),
        ..go_on(c)
    }
}
