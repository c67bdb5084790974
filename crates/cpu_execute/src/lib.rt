// What an instruction does, with its operands read. Carries 01 "One step": a clause for each of the 68 instructions.

#![tactic(auto)]

ghost use Rattle.std.specs.Prelude.{◌≡◌};
ghost use Rattle.cpu_decode.specs.Fields.{FieldsOk};
ghost use Rattle.cpu_execute.specs.Execute.{at, or_trap, negative_of, positive_of, target_of, execute_of};

use cpu_alu::mul_div::{HiLo, divide, divide_unsigned, multiply};
use cpu_alu::sums::{add_signed, less_signed, sub_signed};
use cpu_decode::fields::Fields;
use cpu_decode::operations::Op;
use memory::addresses::Virt;
use memory::loads::LoadKind;
use memory::stores::StoreKind;
use words::shifts::sra;
use words::signed::to_signed;

// What is left to do once the operands are read: one case for each way in which an instruction can change the machine.
#[derive(Clone, Copy)]
pub enum Effect {
    // register, value
    Write(usize, u32),
    // new next PC
    Jump(u32),
    // register, link, new next PC
    Link(usize, u32, u32),
    Product(HiLo),
    Load(LoadKind, usize, Virt),
    Store(StoreKind, u32, Virt),
    // code of the exception: a number, since what carries it out is promised for every code
    Trap(u32),
    // general register, Cop0 register
    ReadSystem(usize, usize),
    WriteSystem(usize, u32),
    Restore,
    // general register, COP2 register of 64
    ReadGeometry(usize, usize),
    WriteGeometry(usize, u32),
    Command(u32),
    LoadGeometry(usize, Virt),
    StoreGeometry(usize, Virt),
}

// The address of a load or store: base plus offset.
fn address(a: u32, f: Fields) -> Virt
    ensures { result ≡ at a f }
{
    Virt(a.wrapping_add(f.extended))
}

// A sum written, or a trap where it did not fit.
fn write_sum(r: usize, sum: Option<u32>) -> Effect
    ensures { result ≡ or_trap r sum }
{
    match sum {
        Some(v) => Effect::Write(r, v),
        None => Effect::Trap(12),
    }
}

fn negative(a: u32) -> bool
    ensures { result ≡ negative_of a }
{
    to_signed(a) < 0
}

fn positive(a: u32) -> bool
    ensures { result ≡ positive_of a }
{
    0 < to_signed(a)
}

// A branch's new next PC.
#[tactic(auto, unfolding(crate::specs::Execute::target_of))]
fn branch_target(taken: bool, next: u32, offset: u32) -> u32
    ensures { result ≡ target_of taken next offset }
{
    next.wrapping_add(if taken { offset } else { 4 })
}

// An operation with its fields and operands: a is rs, b is rt, next is next PC as it stood before the step, h is HI and LO.
#[tactic(auto, unfolding(crate::specs::Execute::execute_of))]
pub fn execute(op: Op, f: Fields, a: u32, b: u32, next: u32, h: HiLo) -> Effect
    requires { FieldsOk f }
    ensures { result ≡ execute_of op f a b next h }
{
    match op {
        Op::Reserved => Effect::Trap(10),
        Op::Sll => Effect::Write(f.rd, b << f.shift),
        Op::Srl => Effect::Write(f.rd, b >> f.shift),
        Op::Sra => Effect::Write(f.rd, sra(b, f.shift)),
        Op::Sllv => Effect::Write(f.rd, b << (a % 32)),
        Op::Srlv => Effect::Write(f.rd, b >> (a % 32)),
        Op::Srav => Effect::Write(f.rd, sra(b, a)),
        Op::Jr => Effect::Jump(a),
        Op::Jalr => Effect::Link(f.rd, next.wrapping_add(4), a),
        Op::Syscall => Effect::Trap(8),
        Op::Break => Effect::Trap(9),
        Op::Mfhi => Effect::Write(f.rd, h.hi),
        Op::Mthi => Effect::Product(HiLo { hi: a, ..h }),
        Op::Mflo => Effect::Write(f.rd, h.lo),
        Op::Mtlo => Effect::Product(HiLo { lo: a, ..h }),
        Op::Mult | Op::Multu => { Effect::Product(multiply(matches!(op, Op::Mult), a, b)) }
        Op::Div => Effect::Product(divide(a, b)),
        Op::Divu => Effect::Product(divide_unsigned(a, b)),
        Op::Add => write_sum(f.rd, add_signed(a, b)),
        Op::Addu => Effect::Write(f.rd, a.wrapping_add(b)),
        Op::Sub => write_sum(f.rd, sub_signed(a, b)),
        Op::Subu => Effect::Write(f.rd, a.wrapping_sub(b)),
        Op::And => Effect::Write(f.rd, a & b),
        Op::Or => Effect::Write(f.rd, a | b),
        Op::Xor => Effect::Write(f.rd, a ^ b),
        Op::Nor => Effect::Write(f.rd, !(a | b)),
        Op::Slt => Effect::Write(f.rd, less_signed(a, b)),
        Op::Sltu => Effect::Write(f.rd, u32::from(a < b)),
        Op::Bltz => Effect::Jump(branch_target(negative(a), next, f.offset)),
        Op::Bgez => Effect::Jump(branch_target(!negative(a), next, f.offset)),
        Op::Bltzal => Effect::Link(
            31,
            next.wrapping_add(4),
            branch_target(negative(a), next, f.offset),
        ),
        Op::Bgezal => Effect::Link(
            31,
            next.wrapping_add(4),
            branch_target(!negative(a), next, f.offset),
        ),
        Op::J => Effect::Jump(next / 0x1000_0000 * 0x1000_0000 + f.target),
        Op::Jal => Effect::Link(
            31,
            next.wrapping_add(4),
            next / 0x1000_0000 * 0x1000_0000 + f.target,
        ),
        Op::Beq => Effect::Jump(branch_target(a == b, next, f.offset)),
        Op::Bne => Effect::Jump(branch_target(a != b, next, f.offset)),
        Op::Blez => Effect::Jump(branch_target(!positive(a), next, f.offset)),
        Op::Bgtz => Effect::Jump(branch_target(positive(a), next, f.offset)),
        Op::Addi => write_sum(f.rt, add_signed(a, f.extended)),
        Op::Addiu => Effect::Write(f.rt, a.wrapping_add(f.extended)),
        Op::Slti => Effect::Write(f.rt, less_signed(a, f.extended)),
        Op::Sltiu => Effect::Write(f.rt, u32::from(a < f.extended)),
        Op::Andi => Effect::Write(f.rt, a & f.immediate),
        Op::Ori => Effect::Write(f.rt, a | f.immediate),
        Op::Xori => Effect::Write(f.rt, a ^ f.immediate),
        Op::Lui => Effect::Write(f.rt, f.immediate * 0x1_0000),
        Op::Lb => Effect::Load(LoadKind::Byte, f.rt, address(a, f)),
        Op::Lh => Effect::Load(LoadKind::Half, f.rt, address(a, f)),
        Op::Lwl => Effect::Load(LoadKind::Left, f.rt, address(a, f)),
        Op::Lw => Effect::Load(LoadKind::Word, f.rt, address(a, f)),
        Op::Lbu => Effect::Load(LoadKind::ByteUnsigned, f.rt, address(a, f)),
        Op::Lhu => Effect::Load(LoadKind::HalfUnsigned, f.rt, address(a, f)),
        Op::Lwr => Effect::Load(LoadKind::Right, f.rt, address(a, f)),
        Op::Sb => Effect::Store(StoreKind::Byte, b, address(a, f)),
        Op::Sh => Effect::Store(StoreKind::Half, b, address(a, f)),
        Op::Swl => Effect::Store(StoreKind::Left, b, address(a, f)),
        Op::Sw => Effect::Store(StoreKind::Word, b, address(a, f)),
        Op::Swr => Effect::Store(StoreKind::Right, b, address(a, f)),
        Op::Mfc0 => Effect::ReadSystem(f.rt, f.rd),
        Op::Mtc0 => Effect::WriteSystem(f.rd, b),
        Op::Rfe => Effect::Restore,
        Op::Mfc2 => Effect::ReadGeometry(f.rt, f.rd),
        Op::Cfc2 => Effect::ReadGeometry(f.rt, f.rd + 32),
        Op::Mtc2 => Effect::WriteGeometry(f.rd, b),
        Op::Ctc2 => Effect::WriteGeometry(f.rd + 32, b),
        Op::Command => Effect::Command(f.word),
        Op::Lwc2 => Effect::LoadGeometry(f.rt, address(a, f)),
        Op::Swc2 => Effect::StoreGeometry(f.rt, address(a, f)),
    }
}
