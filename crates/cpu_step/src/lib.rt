// One step of the machine. Registers, COP2 words, RAM and pad are lent; the rest of the state goes by value. Carries 01 "One
// step": the test order, and the stop before an unlisted command.

#![tactic(auto)]

ghost use Rattle.std.specs.Prelude.{◌≡◌};
ghost use Rattle.memory.specs.Memory.{Memory, memory, MemoryOk};
ghost use Rattle.gte_registers.specs.Registers.{view};
ghost use Rattle.cpu_state.specs.State.{state};
ghost use Rattle.cpu_perform.specs.Perform.{perform_of};
ghost use Rattle.cpu_step.specs.Step.{stepped, command_step, issue_of, step_of};

use cpu_decode::fields::fields_of;
use cpu_decode::operations::decode;
use cpu_decode::owners::{number, owner_of};
use cpu_effects::results::do_next;
use cpu_effects::traps::{fault, trap};
use cpu_execute::{Effect, execute};
use cpu_perform::perform;
use cpu_state::control::{Control, usable, user};
use gte::{Unlisted, command};
use memory::addresses::{Fault, Virt};
use memory::loads::fetch;

#[tactic(auto, unfolding(gte::specs::Commands::command_of))]
fn do_command(
    c: Control,
    r: &mut [u32; 32],
    g: &mut [u32; 64],
    word: u32,
) -> Result<Control, Unlisted>
    ensures { (m : Memory) → stepped result c r.new (view g.new) m ≡ command_step word (state c r.old (view g.old) m) }
{
    command(g, word)?;
    Ok(do_next(c, r))
}

#[tactic(auto, using(crate::proofs::Others::other), unfolding(cpu_perform::specs::Perform::perform_of))]
fn carry_out(
    e: Effect,
    c: Control,
    r: &mut [u32; 32],
    g: &mut [u32; 64],
    ram: &mut [u8],
    pad: &mut [u8],
) -> Result<Control, Unlisted>
    requires { MemoryOk (memory ram.old pad.old) }
    ensures { stepped result c r.new (view g.new) (memory ram.new pad.new) ≡ perform_of command_step e (state c r.old (view g.old) (memory ram.old pad.old)) }
{
    match e {
        Effect::Command(word) => do_command(c, r, g, word),
        _ => Ok(perform(e, c, r, g, ram, pad)),
    }
}

// The step of a word that was fetched.
#[tactic(auto, unfolding(crate::specs::Step::issue_of))]
fn issue(
    word: u32,
    c: Control,
    r: &mut [u32; 32],
    g: &mut [u32; 64],
    ram: &mut [u8],
    pad: &mut [u8],
) -> Result<Control, Unlisted>
    requires { MemoryOk (memory ram.old pad.old) }
    ensures { stepped result c r.new (view g.new) (memory ram.new pad.new) ≡ issue_of word (state c r.old (view g.old) (memory ram.old pad.old)) }
{
    let o = owner_of(word);
    if usable(o, c.system) {
        let rs = (word / 0x20_0000 % 32) as usize;
        let rt = (word / 0x1_0000 % 32) as usize;
        let t = fields_of(word);
        let a = r[rs];
        let b = r[rt];
        // Last, so that the compiler joins its choice with that of execute.
        let op = decode(word);
        let e = execute(op, t, a, b, c.flow.next, c.product);
        carry_out(e, c, r, g, ram, pad)
    } else {
        Ok(trap(c, r, 11, number(o)))
    }
}

// One step: fetch, the tests in 01's order, the instruction. An exception is a step like any other; before an unlisted COP2 command
// the machine stands as it was. What is lent comes by one parameter each, and the control state by value: a struct of what is lent would
// need a clause for each part beside the one equation, and the control state would go through memory.
#[tactic(auto, unfolding(crate::specs::Step::step_of))]
pub fn step(
    c: Control,
    r: &mut [u32; 32],
    g: &mut [u32; 64],
    ram: &mut [u8],
    pad: &mut [u8],
) -> Result<Control, Unlisted>
    requires { MemoryOk (memory ram.old pad.old) }
    ensures { stepped result c r.new (view g.new) (memory ram.new pad.new) ≡ step_of (state c r.old (view g.old) (memory ram.old pad.old)) }
{
    match fetch(ram, Virt(c.flow.pc), user(c.system)) {
        Ok(word) => issue(word, c, r, g, ram, pad),
        Err(Fault::Bus) => Ok(trap(c, r, 6, 0)),
        Err(Fault::Address) => Ok(fault(c, r, 4, c.flow.pc)),
    }
}
