// Which instruction a word encodes.
ghost use Rattle.std.specs.Prelude.{◌≡◌};
ghost use Rattle.cpu_decode.specs.Decode.{specials, conditions, moves0, moves2, system_of, geometry_of, decode_of};
ghost use Rattle.tables.specs.Table.{lookup};
ghost use Rattle.cpu_decode.specs.declared.operations.Op.TheVariants.{Reserved};

// The 68 instructions, and Reserved for every other word.
#[derive(Clone, Copy, Debug, PartialEq, Eq)]
pub enum Op {
    Reserved,
    Sll,
    Srl,
    Sra,
    Sllv,
    Srlv,
    Srav,
    Jr,
    Jalr,
    Syscall,
    Break,
    Mfhi,
    Mthi,
    Mflo,
    Mtlo,
    Mult,
    Multu,
    Div,
    Divu,
    Add,
    Addu,
    Sub,
    Subu,
    And,
    Or,
    Xor,
    Nor,
    Slt,
    Sltu,
    Bltz,
    Bgez,
    Bltzal,
    Bgezal,
    J,
    Jal,
    Beq,
    Bne,
    Blez,
    Bgtz,
    Addi,
    Addiu,
    Slti,
    Sltiu,
    Andi,
    Ori,
    Xori,
    Lui,
    Lb,
    Lh,
    Lwl,
    Lw,
    Lbu,
    Lhu,
    Lwr,
    Sb,
    Sh,
    Swl,
    Sw,
    Swr,
    Mfc0,
    Mtc0,
    Rfe,
    Mfc2,
    Cfc2,
    Mtc2,
    Ctc2,
    Command,
    Lwc2,
    Swc2,
}

#[tactic(auto, unfolding(crate::specs::Decode::specials))]
fn special(funct: u32) -> Op
    ensures { result ≡ lookup specials Reserved funct }
{
    match funct {
        0x00 => Op::Sll,
        0x02 => Op::Srl,
        0x03 => Op::Sra,
        0x04 => Op::Sllv,
        0x06 => Op::Srlv,
        0x07 => Op::Srav,
        0x08 => Op::Jr,
        0x09 => Op::Jalr,
        0x0c => Op::Syscall,
        0x0d => Op::Break,
        0x10 => Op::Mfhi,
        0x11 => Op::Mthi,
        0x12 => Op::Mflo,
        0x13 => Op::Mtlo,
        0x18 => Op::Mult,
        0x19 => Op::Multu,
        0x1a => Op::Div,
        0x1b => Op::Divu,
        0x20 => Op::Add,
        0x21 => Op::Addu,
        0x22 => Op::Sub,
        0x23 => Op::Subu,
        0x24 => Op::And,
        0x25 => Op::Or,
        0x26 => Op::Xor,
        0x27 => Op::Nor,
        0x2a => Op::Slt,
        0x2b => Op::Sltu,
        _ => Op::Reserved,
    }
}

#[tactic(auto, unfolding(crate::specs::Decode::conditions))]
fn condition(rt: u32) -> Op
    ensures { result ≡ lookup conditions Reserved rt }
{
    match rt {
        0x00 => Op::Bltz,
        0x01 => Op::Bgez,
        0x10 => Op::Bltzal,
        0x11 => Op::Bgezal,
        _ => Op::Reserved,
    }
}

#[tactic(auto, unfolding(crate::specs::Decode::moves0))]
fn move_0(rs: u32) -> Op
    ensures { result ≡ lookup moves0 Reserved rs }
{
    match rs {
        0x00 => Op::Mfc0,
        0x04 => Op::Mtc0,
        _ => Op::Reserved,
    }
}

#[tactic(auto, unfolding(crate::specs::Decode::moves2))]
fn move_2(rs: u32) -> Op
    ensures { result ≡ lookup moves2 Reserved rs }
{
    match rs {
        0x00 => Op::Mfc2,
        0x02 => Op::Cfc2,
        0x04 => Op::Mtc2,
        0x06 => Op::Ctc2,
        _ => Op::Reserved,
    }
}

#[tactic(auto, unfolding(crate::specs::Decode::system_of))]
fn system(word: u32) -> Op
    ensures { result ≡ system_of word }
{
    if word / 0x200_0000 % 2 == 1 {
        if word % 64 == 0x10 {
            Op::Rfe
        } else {
            Op::Reserved
        }
    } else {
        move_0(word / 0x20_0000 % 32)
    }
}

#[tactic(auto, unfolding(crate::specs::Decode::geometry_of))]
fn geometry(word: u32) -> Op
    ensures { result ≡ geometry_of word }
{
    if word / 0x200_0000 % 2 == 1 {
        Op::Command
    } else {
        move_2(word / 0x20_0000 % 32)
    }
}

// The operation of a word. Whether its coprocessor may be used is asked before, by its owner.
#[tactic(auto, unfolding(crate::specs::Decode::decode_of, crate::specs::Decode::primaries))]
pub fn decode(word: u32) -> Op
    ensures { result ≡ decode_of word }
{
    match word / 0x400_0000 {
        0x00 => special(word % 64),
        0x01 => condition(word / 0x1_0000 % 32),
        0x10 => system(word),
        0x12 => geometry(word),
        0x02 => Op::J,
        0x03 => Op::Jal,
        0x04 => Op::Beq,
        0x05 => Op::Bne,
        0x06 => Op::Blez,
        0x07 => Op::Bgtz,
        0x08 => Op::Addi,
        0x09 => Op::Addiu,
        0x0a => Op::Slti,
        0x0b => Op::Sltiu,
        0x0c => Op::Andi,
        0x0d => Op::Ori,
        0x0e => Op::Xori,
        0x0f => Op::Lui,
        0x20 => Op::Lb,
        0x21 => Op::Lh,
        0x22 => Op::Lwl,
        0x23 => Op::Lw,
        0x24 => Op::Lbu,
        0x25 => Op::Lhu,
        0x26 => Op::Lwr,
        0x28 => Op::Sb,
        0x29 => Op::Sh,
        0x2a => Op::Swl,
        0x2b => Op::Sw,
        0x2e => Op::Swr,
        0x32 => Op::Lwc2,
        0x3a => Op::Swc2,
        _ => Op::Reserved,
    }
}
