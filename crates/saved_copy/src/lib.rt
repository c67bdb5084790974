// Bytes moved between a machine's lent buffers and the fields of its file. Carries the blocks of 02, Ticket 3.

#![tactic(auto)]

ghost use Rattle.std.specs.Prelude.{◌≡◌, ◌+◌, ◌<◌, ◌≤◌, length, drop};
ghost use Rattle.std.proofs.lemmas.List.Edits.{sets};
ghost use Rattle.saved_format.specs.Format.{field};
ghost use Rattle.saved_format.specs.Writing.{full_blocks, blocks_of, ram_in, blocks_length};

// All of src, stored from a place on. With `copy_from_slice` the library for C would call memmove, and it calls memcpy and nothing else.
#[tactic(auto, using(crate::proofs::Copying::copying_none, crate::proofs::Copying::copying_more, crate::proofs::Copying::copying_all))]
pub fn copy(dst: &mut [u8], at: usize, src: &[u8])
    requires { at + length src.now ≤ length dst.old }
    ensures { dst.new ≡ sets dst.old at src.now }
{
    for (i, &byte) in src.iter().enumerate() {
        dst[at + i] = byte;
    }
}

// A field stored from a place on.
#[tactic(auto, using(crate::proofs::Copying::put_is))]
pub fn put_field(out: &mut [u8], at: usize, tag: u8, content: &[u8])
    requires { (at + (3 + length content.now) ≤ length out.old) × (length content.now < 65536) }
    ensures { out.new ≡ sets out.old at (field tag content.now) }
{
    let [lower, upper] = (content.len() as u16).to_le_bytes();
    out[at] = tag;
    out[at + 1] = lower;
    out[at + 2] = upper;
    copy(out, at + 3, content);
}

// The blocks of RAM stored from a place on.
#[tactic(auto, using(crate::proofs::Blocks::block_fits))]
pub fn put_blocks(out: &mut [u8], from: usize, ram: &[u8])
    requires { (1 ≤ length ram.now) × (from + blocks_length (length ram.now) ≤ length out.old) }
    ensures { out.new ≡ sets out.old from (blocks_of (full_blocks (length ram.now)) ram.now) }
{
    let mut at = from;
    for block in ram.chunks(32768) {
        put_field(out, at, 3, block);
        at += 3 + block.len();
    }
}

// RAM read from the blocks that stand from a place on.
pub fn take_blocks(ram: &mut [u8], file: &[u8], from: usize)
    requires { (1 ≤ length ram.old) × (from + blocks_length (length ram.old) ≤ length file.now) }
    ensures { ram.new ≡ ram_in (full_blocks (length ram.old)) (length ram.old) (drop from file.now) }
{
    let end = from + ram.len() + 3 * ram.len().div_ceil(32768);
    let mut done = 0;
    // through `ram.chunks_mut` nothing would be known of the bytes written
    for block in file[from..end].chunks(32771) {
        copy(ram, done, &block[3..]);
        done += block.len() - 3;
    }
}
