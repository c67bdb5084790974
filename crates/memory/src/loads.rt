// Loads from RAM and from the scratch pad, and fetches from RAM.
ghost use Rattle.std.specs.Prelude.{List, ◌≡◌, ℕ, ◌+◌, ◌%◌, ◌<◌, ◌≤◌, length};
ghost use Rattle.memory.specs.Addresses.{RamOk, pad_length, beyond_ram, place_of};
ghost use Rattle.memory.specs.Memory.{memory, MemoryOk};
ghost use Rattle.memory.specs.Loads.{load_align, half_at, left_of, right_of, read_of, load_of, ram_load_of, fetch_of};

use crate::addresses::{Fault, Place, Virt, beyond_ram, locate, translate_word};
use byte_order::word_at;
use words::signed::{sign_extend_8, sign_extend_16};

// The seven loads of MIPS I: how much is read, how it is extended, or (Left, Right) merged.
#[derive(Clone, Copy, Debug, PartialEq, Eq)]
pub enum LoadKind {
    Byte,
    ByteUnsigned,
    Half,
    HalfUnsigned,
    Word,
    Left,
    Right,
}

impl LoadKind {
    // By how much an address has to be a multiple.
    fn align(self) -> u32
        ensures is { result ≡ load_align self }
        ensures positive { 0 < result }
    {
        match self {
            LoadKind::Byte | LoadKind::ByteUnsigned | LoadKind::Left | LoadKind::Right => 1,
            LoadKind::Half | LoadKind::HalfUnsigned => 2,
            LoadKind::Word => 4,
        }
    }
}

#[tactic(auto, unfolding(crate::specs::Loads::half_at))]
fn half_at(m: &[u8], at: usize) -> u32
    requires { at + 2 ≤ length m.now }
    ensures { result ≡ half_at m.now at }
{
    u32::from(u16::from_le_bytes([m[at], m[at + 1]]))
}

// LWL: the word's bytes up to the n-th, above the register's low bytes.
#[tactic(auto, using(crate::proofs::Merges::left_is))]
fn merge_left(word: u32, old: u32, n: u32) -> u32
    requires { n < 4 }
    ensures { result ≡ left_of word old n }
{
    let shift = 24 - 8 * n;
    (word << shift) | (old & !(u32::MAX << shift))
}

// LWR: the word's bytes from the n-th on, below the register's high bytes.
#[tactic(auto, using(crate::proofs::Merges::right_is))]
fn merge_right(word: u32, old: u32, n: u32) -> u32
    requires { n < 4 }
    ensures { result ≡ right_of word old n }
{
    let shift = 8 * n;
    (word >> shift) | (old & !(u32::MAX >> shift))
}

// What a load makes of memory at a place; old is what its register holds, or what waits for it.
#[tactic(auto, unfolding(crate::specs::Loads::read_of))]
fn read(k: LoadKind, m: &[u8], at: usize, old: u32) -> u32
    requires m_len { length m.now % 4 ≡ 0 }
    requires at_in_bounds { at < length m.now }
    requires k_value { at % load_align k ≡ 0 }
    ensures { result ≡ read_of k m.now at old }
{
    match k {
        LoadKind::Byte => sign_extend_8(u32::from(m[at])),
        LoadKind::ByteUnsigned => u32::from(m[at]),
        LoadKind::Half => sign_extend_16(half_at(m, at)),
        LoadKind::HalfUnsigned => half_at(m, at),
        LoadKind::Word => word_at(m, at),
        LoadKind::Left => merge_left(word_at(m, at / 4 * 4), old, (at % 4) as u32),
        LoadKind::Right => merge_right(word_at(m, at / 4 * 4), old, (at % 4) as u32),
    }
}

// The tests of an address in their order, for any kind of load from RAM.
fn load_at(k: LoadKind, ram: &[u8], v: Virt, user: bool, old: u32) -> Result<u32, Fault>
    requires { RamOk ram.now }
    ensures { result ≡ ram_load_of k ram.now old (place_of v.0 (load_align k) user (length ram.now)) }
{
    match locate(v, k.align(), user, ram.len())? {
        Place::Ram(p) => Ok(read(k, ram, p.0 as usize, old)),
        Place::Pad(_) => Err(Fault::Bus),
    }
}

// A word, which is fetched at every step: one test finds it in RAM in kernel mode.
fn load_word(ram: &[u8], v: Virt, user: bool, old: u32) -> Result<u32, Fault>
    requires { RamOk ram.now }
    ensures { result ≡ ram_load_of LoadKind.Word ram.now old (place_of v.0 4 user (length ram.now)) }
{
    if user {
        return load_at(LoadKind::Word, ram, v, user, old);
    }
    match translate_word(v, ram.len()) {
        Some(p) => Ok(word_at(ram, p.0 as usize)),
        None => load_at(LoadKind::Word, ram, v, user, old),
    }
}

fn load_ram(k: LoadKind, ram: &[u8], v: Virt, user: bool, old: u32) -> Result<u32, Fault>
    requires { RamOk ram.now }
    ensures { result ≡ ram_load_of k ram.now old (place_of v.0 (load_align k) user (length ram.now)) }
{
    match k {
        LoadKind::Word => load_word(ram, v, user, old),
        _ => load_at(k, ram, v, user, old),
    }
}

// A load from an aligned address that the mode allows and that is not in RAM. It is a function of its own, called where RAM answers
// a bus error, so that the code for RAM is as short as without a pad.
fn load_beyond(k: LoadKind, pad: &[u8], v: Virt, old: u32) -> Result<u32, Fault>
    requires pad_len { length pad.now ≡ pad_length }
    requires k_value { v.0 % load_align k ≡ 0 }
    ensures { (ram : List ℕ) → result ≡ load_of k (memory ram pad.now) old (beyond_ram v.0) }
{
    match beyond_ram(v)? {
        Place::Ram(_) => unreachable!(),
        Place::Pad(p) => Ok(read(k, pad, p.pad_place(), old)),
    }
}

// One load with all its tests, for the processor: the mode and alignment first (Address), then RAM and the pad (Bus). old is what LWL
// and LWR merge with.
pub fn load(
    k: LoadKind,
    ram: &[u8],
    pad: &[u8],
    v: Virt,
    user: bool,
    old: u32,
) -> Result<u32, Fault>
    requires { MemoryOk (memory ram.now pad.now) }
    ensures { result ≡ load_of k (memory ram.now pad.now) old (place_of v.0 (load_align k) user (length ram.now)) }
{
    match load_ram(k, ram, v, user, old) {
        Err(Fault::Bus) => load_beyond(k, pad, v, old),
        answered => answered,
    }
}

// The fetch of an instruction, which no memory but RAM answers.
pub fn fetch(ram: &[u8], v: Virt, user: bool) -> Result<u32, Fault>
    requires { RamOk ram.now }
    ensures { result ≡ fetch_of ram.now (place_of v.0 4 user (length ram.now)) }
{
    load_word(ram, v, user, 0)
}
