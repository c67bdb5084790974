// Stores in RAM and in the scratch pad.
ghost use Rattle.std.specs.Prelude.{List, ◌≡◌, ℕ, ◌+◌, ◌*◌, ◌/◌, ◌%◌, ◌<◌, ◌≤◌, length};
ghost use Rattle.std.proofs.lemmas.List.Edits.{sets};
ghost use Rattle.memory.specs.Addresses.{RamOk, pad_length, beyond_ram, place_of};
ghost use Rattle.memory.specs.Memory.{memory, MemoryOk};
ghost use Rattle.memory.specs.Stores.{store_align, write_of, store_of, memory_after, ram_store_of, ram_after};

use crate::addresses::{Fault, Place, Virt, beyond_ram, locate};
use byte_order::put_word;

// The five stores of MIPS I.
#[derive(Clone, Copy, Debug, PartialEq, Eq)]
pub enum StoreKind {
    Byte,
    Half,
    Word,
    Left,
    Right,
}

impl StoreKind {
    // By how much an address has to be a multiple.
    fn align(self) -> u32
        ensures is { result ≡ store_align self }
        ensures positive { 0 < result }
    {
        match self {
            StoreKind::Byte | StoreKind::Left | StoreKind::Right => 1,
            StoreKind::Half => 2,
            StoreKind::Word => 4,
        }
    }
}

// Bytes stored in a row from a place on. Its callers give a slice of constant length, so that each is a store or two and no call.
#[tactic(auto, using(byte_order::proofs::Rows::copied))]
fn put(m: &mut [u8], at: usize, bytes: &[u8])
    requires { at + length bytes.now ≤ length m.old }
    ensures { m.new ≡ sets m.old at bytes.now }
{
    m[at..at + bytes.len()].copy_from_slice(bytes);
}

// SWL: the register's top bytes, from the word's beginning up to the byte at.
#[tactic(auto, unfolding(crate::specs::Stores::write_of))]
fn put_left(m: &mut [u8], at: usize, x: u32)
    requires { at / 4 * 4 + 4 ≤ length m.old }
    ensures { m.new ≡ write_of StoreKind.Left m.old at x }
{
    let base = at / 4 * 4;
    let bytes = x.to_le_bytes();
    match at % 4 {
        0 => put(m, base, &bytes[3..]),
        1 => put(m, base, &bytes[2..]),
        2 => put(m, base, &bytes[1..]),
        _ => put(m, base, &bytes),
    }
}

// SWR: the register's low bytes, from the byte at to the word's end.
#[tactic(auto, unfolding(crate::specs::Stores::write_of))]
fn put_right(m: &mut [u8], at: usize, x: u32)
    requires { at / 4 * 4 + 4 ≤ length m.old }
    ensures { m.new ≡ write_of StoreKind.Right m.old at x }
{
    let bytes = x.to_le_bytes();
    match at % 4 {
        0 => put(m, at, &bytes),
        1 => put(m, at, &bytes[..3]),
        2 => put(m, at, &bytes[..2]),
        _ => put(m, at, &bytes[..1]),
    }
}

// What a store leaves in memory at a place.
#[tactic(auto, unfolding(crate::specs::Stores::write_of))]
fn write(k: StoreKind, m: &mut [u8], at: usize, x: u32)
    requires m_len { length m.old % 4 ≡ 0 }
    requires at_in_bounds { at < length m.old }
    requires k_value { at % store_align k ≡ 0 }
    ensures { m.new ≡ write_of k m.old at x }
{
    let bytes = x.to_le_bytes();
    match k {
        StoreKind::Byte => m[at] = bytes[0],
        StoreKind::Half => put(m, at, &bytes[..2]),
        StoreKind::Word => put_word(m, at, x),
        StoreKind::Left => put_left(m, at, x),
        StoreKind::Right => put_right(m, at, x),
    }
}

// The tests of an address in their order, for any kind of store to RAM.
fn store_ram(k: StoreKind, ram: &mut [u8], v: Virt, user: bool, x: u32) -> Result<(), Fault>
    requires { RamOk ram.old }
    ensures is { result ≡ ram_store_of (place_of v.0 (store_align k) user (length ram.old)) }
    ensures after { ram.new ≡ ram_after k ram.old x (place_of v.0 (store_align k) user (length ram.old)) }
{
    match locate(v, k.align(), user, ram.len())? {
        Place::Ram(p) => {
            write(k, ram, p.0 as usize, x);
            Ok(())
        }
        Place::Pad(_) => Err(Fault::Bus),
    }
}

// A store to an aligned address that the mode allows and that is not in RAM: a function of its own, as `load_beyond` is.
fn store_beyond(k: StoreKind, pad: &mut [u8], v: Virt, x: u32) -> Result<(), Fault>
    requires pad_len { length pad.old ≡ pad_length }
    requires k_value { v.0 % store_align k ≡ 0 }
    ensures is { result ≡ store_of (beyond_ram v.0) }
    ensures after { (ram : List ℕ) → memory ram pad.new ≡ memory_after k (memory ram pad.old) x (beyond_ram v.0) }
{
    match beyond_ram(v)? {
        Place::Ram(_) => unreachable!(),
        Place::Pad(p) => {
            write(k, pad, p.pad_place(), x);
            Ok(())
        }
    }
}

// One store with all its tests, for the processor, in the order of a load's. A store that is refused leaves memory as it was.
pub fn store(
    k: StoreKind,
    ram: &mut [u8],
    pad: &mut [u8],
    v: Virt,
    user: bool,
    x: u32,
) -> Result<(), Fault>
    requires { MemoryOk (memory ram.old pad.old) }
    ensures is { result ≡ store_of (place_of v.0 (store_align k) user (length ram.old)) }
    ensures after { memory ram.new pad.new ≡ memory_after k (memory ram.old pad.old) x (place_of v.0 (store_align k) user (length ram.old)) }
{
    match store_ram(k, ram, v, user, x) {
        Err(Fault::Bus) => store_beyond(k, pad, v, x),
        answered => answered,
    }
}
