// Exceptions over the control state and the 32 registers that the caller lends.
ghost use Rattle.std.specs.Prelude.{◌≡◌, ℕ, List};
ghost use Rattle.memory.specs.Memory.{Memory};
ghost use Rattle.cpu_state.specs.State.{state};
ghost use Rattle.cpu_effects.specs.Traps.{trap_step, fault_step};

use crate::delay::land;
use cpu_state::control::Control;
use cpu_state::exceptions::{raise, with_bad_address};

// An exception that leaves BADV alone: the waiting load lands, then the control state goes to the vector.
#[tactic(auto, unfolding(crate::specs::Traps::trap_step))]
pub fn trap(c: Control, r: &mut [u32; 32], code: u32, unit: u32) -> Control
    ensures { (g : List ℕ) (m : Memory) → state result r.new g m ≡ trap_step code unit (state c r.old g m) }
{
    land(c.pending, r);
    raise(c, code % 32, unit % 4)
}

// An address error (AdEL, AdES), which BADV names.
#[tactic(auto, unfolding(crate::specs::Traps::fault_step))]
pub fn fault(c: Control, r: &mut [u32; 32], code: u32, a: u32) -> Control
    ensures { (g : List ℕ) (m : Memory) → state result r.new g m ≡ fault_step code a (state c r.old g m) }
{
    trap(with_bad_address(c, a), r, code, 0)
}
