// What a jump, and a jump with a link, do to the control state and the 32 registers that the caller lends.
ghost use Rattle.std.specs.Prelude.{◌≡◌, ℕ, List};
ghost use Rattle.memory.specs.Memory.{Memory};
ghost use Rattle.cpu_state.specs.State.{state};
ghost use Rattle.cpu_effects.specs.Jumps.{jump_step, link_step};

use crate::delay::{land, write_register};
use crate::flow::go_to;
use cpu_state::control::Control;

// J, JR and the branches without a link.
#[tactic(auto, unfolding(crate::specs::Jumps::jump_step))]
pub fn do_jump(c: Control, r: &mut [u32; 32], target: u32) -> Control
    ensures { (g : List ℕ) (m : Memory) → state result r.new g m ≡ jump_step target (state c r.old g m) }
{
    land(c.pending, r);
    go_to(c, target)
}

// JAL, JALR, BLTZAL and BGEZAL. The link comes after the landing, so it drops a value that waits for its register.
#[tactic(auto, unfolding(crate::specs::Jumps::link_step))]
pub fn do_link(c: Control, r: &mut [u32; 32], n: usize, link: u32, target: u32) -> Control
    ensures { (g : List ℕ) (m : Memory) → state result r.new g m ≡ link_step n link target (state c r.old g m) }
{
    land(c.pending, r);
    write_register(r, n, link);
    go_to(c, target)
}
