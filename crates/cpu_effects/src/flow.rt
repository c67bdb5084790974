// PC and next PC.
ghost use Rattle.std.specs.Prelude.{◌≡◌};
ghost use Rattle.cpu_state.specs.System.{none};
ghost use Rattle.cpu_effects.specs.Flow.{onward, jumped, with};

use crate::delay::nothing;
use cpu_state::control::{Control, Flow};

// After every step but a jump, a branch or an exception.
pub fn next(f: Flow) -> Flow
    ensures { result ≡ onward f }
{
    Flow {
        pc: f.next,
        next: f.next.wrapping_add(4),
        slot: 0,
    }
}

// After a jump or branch, taken or not: target is the new next PC, and the instruction in between is in its delay slot.
pub fn jump(f: Flow, target: u32) -> Flow
    ensures { result ≡ jumped f target }
{
    Flow {
        pc: f.next,
        next: target,
        slot: 1,
    }
}

// A control state that goes on, with nothing left waiting, and Cop0, HI and LO as they were.
pub fn go_on(c: Control) -> Control
    ensures { result ≡ with (onward c.flow) none c }
{
    Control {
        flow: next(c.flow),
        pending: nothing(),
        ..c
    }
}

// The same at a jump.
pub fn go_to(c: Control, target: u32) -> Control
    ensures { result ≡ with (jumped c.flow target) none c }
{
    Control {
        flow: jump(c.flow, target),
        pending: nothing(),
        ..c
    }
}
