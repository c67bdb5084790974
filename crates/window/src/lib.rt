// The window over lent memory: from RAM, the scratch pad, a virtual address and a length, that part of one of the two itself. Carries
// the last paragraph of 01 "The run and its numbers", and the window of 02's Ticket 1.

#![tactic(auto)]

ghost use Rattle.std.specs.Prelude.{◌≡◌, ◌+◌, ◌≤◌};
ghost use Rattle.memory.specs.Memory.{memory};
ghost use Rattle.window.specs.Window.{part_from, good_lengths, part_of, window_part, chosen, bytes_in};

use memory::addresses::{Place, Virt, ram_length, translate};

// A part of RAM, or of the pad: where it begins, and how long it is. Which of the two it is stays a bit, as in the number that C gets.
#[derive(Clone, Copy, Debug, PartialEq, Eq)]
pub struct Part {
    pub pad: bool,
    pub at: usize,
    pub length: usize,
}

const NOTHING: Part = Part {
    pad: false,
    at: 0,
    length: 0,
};

// The rest of a memory from a place on has n bytes.
#[tactic(auto, unfolding(crate::specs::Window::part_from))]
fn part_from(pad: bool, at: usize, n: usize, len: usize) -> Part
    requires { at ≤ len }
    ensures { result ≡ part_from pad at n len }
{
    if n <= len - at {
        Part { pad, at, length: n }
    } else {
        NOTHING
    }
}

fn good_lengths(ram: usize, pad: usize) -> bool
    ensures { result ≡ good_lengths ram pad }
{
    ram_length(ram) && pad == 1024
}

// Where the window lies: at the beginning of RAM, of length 0, where it is empty.
#[tactic(auto, unfolding(crate::specs::Window::part_of))]
pub fn part_of(v: Virt, n: usize, ram: usize, pad: usize) -> Part
    ensures is { result ≡ part_of v.0 n ram pad }
    ensures within { result.at + result.length ≤ chosen result ram pad }
    ensures small { result.at + result.length ≤ 2097152 }
{
    if !good_lengths(ram, pad) {
        return NOTHING;
    }
    match translate(v, ram) {
        Ok(Place::Ram(p)) => part_from(false, p.0 as usize, n, ram),
        Ok(Place::Pad(p)) => part_from(true, p.pad_place(), n, 1024),
        Err(_) => NOTHING,
    }
}

// The same place in memory, not only equal bytes.
pub fn window<'a>(ram: &'a [u8], pad: &'a [u8], v: Virt, n: usize) -> &'a [u8]
    ensures is { result.now ≡ bytes_in (window_part (memory ram.now pad.now) v.0 n) (memory ram.now pad.now) }
    ensures block { result.ref_ptr.0 ≡ chosen (window_part (memory ram.now pad.now) v.0 n) ram.entry.ref_ptr.0 pad.entry.ref_ptr.0 }
    ensures place { result.ref_ptr.1 ≡ chosen (window_part (memory ram.now pad.now) v.0 n) ram.entry.ref_ptr.1 pad.entry.ref_ptr.1 + (window_part (memory ram.now pad.now) v.0 n).at }
{
    let part = part_of(v, n, ram.len(), pad.len());
    let end = part.at + part.length;
    if part.pad {
        &pad[part.at..end]
    } else {
        &ram[part.at..end]
    }
}
