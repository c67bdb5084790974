// A run of steps over registers, COP2 words, RAM and pad that the caller lends. It can be ended by a bit of FLAG; with mask 0 it
// is the plain run, so that one loop serves both and the step is compiled into it. Carries 01 "The run and its numbers": codes 0
// and 5, and the steps.

#![tactic(auto)]

ghost use Rattle.std.specs.Prelude.{◌≡◌, ◌&&◌, not, ◌≤◌, eqb};
ghost use Rattle.std.specs.Int.Bits.{bit_and};
ghost use Rattle.memory.specs.Memory.{memory, MemoryOk};
ghost use Rattle.gte_registers.specs.Registers.{view, reg};
ghost use Rattle.cpu_state.specs.State.{state};
ghost use Rattle.run.specs.Search.{end_code, sought, search_of};

use cpu_state::control::Control;
use cpu_step::step;
use gte_registers::reads::read;

// How a run ended: count steps are done, or an unlisted COP2 command is next, or a bit has come up.
#[derive(Clone, Copy, Debug, PartialEq, Eq)]
pub enum End {
    Counted,
    Unlisted,
    Flag,
}

impl End {
    // The number by which a caller in C is told.
    pub fn code(self) -> u64
        ensures is { result ≡ end_code self }
        ensures small { result ≤ 16 }
    {
        match self {
            End::Counted => 0,
            End::Unlisted => 5,
            End::Flag => 16,
        }
    }
}

// How a run ended, the steps that were completed, and the control state after them.
#[derive(Clone, Copy)]
pub struct Sought {
    pub end: End,
    pub steps: u64,
    pub control: Control,
}

// None of a mask's bits is set in FLAG. A run without a mask does not read FLAG.
fn is_clear(g: &[u32; 64], mask: u32) -> bool
    ensures { result ≡ eqb (bit_and (reg (view g.now) 63) mask) 0 }
{
    mask == 0 || read(g, 63) & mask == 0
}

fn rises(before: bool, after: bool) -> bool
    ensures { result ≡ (before && not after) }
{
    before && !after
}

// count steps, or fewer where the machine stops or a bit comes up.
pub fn run_until(
    first: Control,
    r: &mut [u32; 32],
    g: &mut [u32; 64],
    ram: &mut [u8],
    pad: &mut [u8],
    count: u64,
    mask: u32,
) -> Sought
    requires { MemoryOk (memory ram.old pad.old) }
    ensures is { sought (end_code result.end) result.steps (state result.control r.new (view g.new) (memory ram.new pad.new)) ≡ search_of mask count (state first r.old (view g.old) (memory ram.old pad.old)) }
    ensures within { result.steps ≤ count }
{
    let mut c = first;
    let mut clear = is_clear(g, mask);
    for i in 0..count {
        let Ok(d) = step(c, r, g, ram, pad) else {
            return Sought {
                end: End::Unlisted,
                steps: i,
                control: c,
            };
        };
        c = d;
        let after = is_clear(g, mask);
        if rises(clear, after) {
            return Sought {
                end: End::Flag,
                steps: i + 1,
                control: c,
            };
        }
        clear = after;
    }
    Sought {
        end: End::Counted,
        steps: count,
        control: c,
    }
}
