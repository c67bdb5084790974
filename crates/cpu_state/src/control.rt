// The control state of the machine: PC, the load that waits, Cop0, HI and LO; and the moves of Cop0.
ghost use Rattle.std.specs.Prelude.{◌≡◌};
ghost use Rattle.cpu_state.specs.System.{user_of, usable_of, read_system_of, write_system_of, restored_of};

use cpu_alu::mul_div::HiLo;
use cpu_decode::owners::Owner;

// PC, next PC, and 1 after a jump or branch. slot is a word and no bool: it is word 38 of the image, and `read_image` promises
// the words as they stand, well formed or not.
#[derive(Clone, Copy)]
pub struct Flow {
    pub pc: u32,
    pub next: u32,
    pub slot: u32,
}

// The load that waits: register 0 where there is none. No Option: the image has the two words, and the landing needs no test.
#[derive(Clone, Copy)]
pub struct Pending {
    pub register: u32,
    pub value: u32,
}

// Cop0: SR, CAUSE, EPC and BADV.
#[derive(Clone, Copy)]
pub struct System {
    pub sr: u32,
    pub cause: u32,
    pub epc: u32,
    pub badv: u32,
}

// All of the machine that goes by value through a step; registers, COP2 words and RAM are lent.
#[derive(Clone, Copy)]
pub struct Control {
    pub flow: Flow,
    pub pending: Pending,
    pub system: System,
    pub product: HiLo,
}

// KUc: user mode, in which addresses with bit 31 are errors and COP0 needs CU0.
pub fn user(s: System) -> bool
    ensures { result ≡ user_of s }
{
    s.sr / 2 % 2 == 1
}

// An owner's instructions may be used; else the step is CpU.
#[tactic(auto, using(std::proofs::lemmas::Bool::Decides::nat_tests), unfolding(crate::specs::System::usable_of))]
pub fn usable(o: Owner, s: System) -> bool
    ensures { result ≡ usable_of o s }
{
    match o {
        Owner::Processor => true,
        Owner::Coprocessor0 => !user(s) || s.sr / 0x1000_0000 % 2 == 1,
        Owner::Coprocessor1 => s.sr / 0x2000_0000 % 2 == 1,
        Owner::Coprocessor2 => s.sr / 0x4000_0000 % 2 == 1,
        Owner::Coprocessor3 => s.sr / 0x8000_0000 % 2 == 1,
    }
}

// What MFC0 reads.
#[tactic(auto, unfolding(crate::specs::System::read_system_of))]
pub fn read_system(n: usize, s: System) -> u32
    ensures { result ≡ read_system_of n s }
{
    match n {
        8 => s.badv,
        12 => s.sr,
        13 => s.cause,
        14 => s.epc,
        _ => 0,
    }
}

// What MTC0 leaves in Cop0.
#[tactic(auto, unfolding(crate::specs::System::write_system_of))]
pub fn write_system(n: usize, v: u32, s: System) -> System
    ensures { result ≡ write_system_of n v s }
{
    match n {
        12 => System {
            sr: v & 0xf24f_ff3f,
            ..s
        },
        13 => System {
            cause: s.cause / 0x400 * 0x400 + v / 0x100 % 4 * 0x100 + s.cause % 0x100,
            ..s
        },
        _ => s,
    }
}

// RFE: the mode and interrupt bits that the exception pushed come back.
#[tactic(auto, unfolding(crate::specs::System::restored_of))]
pub fn restored(s: System) -> System
    ensures { result ≡ restored_of s }
{
    System {
        sr: s.sr / 16 * 16 + s.sr / 4 % 16,
        ..s
    }
}
