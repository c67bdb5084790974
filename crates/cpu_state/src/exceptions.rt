// What an exception leaves in the control state.
ghost use Rattle.std.specs.Prelude.{◌≡◌, ◌<◌};
ghost use Rattle.cpu_state.specs.Exceptions.{raised_system, vector_of, raised_of, with_bad_address};

use crate::control::{Control, Flow, Pending, System};

// What an exception leaves in Cop0.
#[tactic(auto, using(std::proofs::lemmas::Bool::Decides::nat_tests), unfolding(crate::specs::Exceptions::raised_system))]
fn raised_system(s: System, f: Flow, code: u32, unit: u32) -> System
    requires code_bound { code < 32 }
    requires unit_bound { unit < 4 }
    ensures { result ≡ raised_system s f code unit }
{
    let raised = System {
        sr: s.sr / 64 * 64 + s.sr % 16 * 4,
        cause: unit * 0x1000_0000 + s.cause / 0x100 % 4 * 0x100 + code * 4,
        epc: f.pc,
        ..s
    };
    if f.slot == 1 {
        System {
            cause: 0x8000_0000 + raised.cause,
            epc: f.pc.wrapping_sub(4),
            ..raised
        }
    } else {
        raised
    }
}

#[tactic(auto, using(std::proofs::lemmas::Bool::Decides::nat_tests), unfolding(crate::specs::Exceptions::vector_of))]
fn vector(s: System) -> u32
    ensures { result ≡ vector_of s }
{
    if s.sr / 0x40_0000 % 2 == 1 {
        0xbfc0_0180
    } else {
        0x8000_0080
    }
}

// The control state after an exception but for the landing, which needs the registers. unit is the coprocessor of CpU.
#[tactic(auto, unfolding(crate::specs::Exceptions::raised_of))]
pub fn raise(c: Control, code: u32, unit: u32) -> Control
    requires code_bound { code < 32 }
    requires unit_bound { unit < 4 }
    ensures { result ≡ raised_of c code unit }
{
    let pc = vector(c.system);
    Control {
        flow: Flow {
            pc,
            next: pc.wrapping_add(4),
            slot: 0,
        },
        pending: Pending {
            register: 0,
            value: 0,
        },
        system: raised_system(c.system, c.flow, code, unit),
        ..c
    }
}

// BADV written, before an address error is raised.
pub fn with_bad_address(c: Control, a: u32) -> Control
    ensures { result ≡ with_bad_address a c }
{
    Control {
        system: System {
            badv: a,
            ..c.system
        },
        ..c
    }
}
