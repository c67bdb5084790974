// What the host in C calls, over lent bytes, words and numbers. Carries 01 "The run and its numbers", and the calls of 02.

#![tactic(auto)]

ghost use Rattle.std.specs.Prelude.{◌≡◌, ◌≤◌, IfOk};
ghost use Rattle.memory.specs.Memory.{memory};
ghost use Rattle.window.specs.Window.{window_part};
ghost use Rattle.causes.specs.Causes.{Causes};
ghost use Rattle.draw_list.specs.Packets.{Answered};
ghost use Rattle.saved.specs.Save.{saved, save_of};
ghost use Rattle.saved.specs.Load.{loaded, Loads};
ghost use Rattle.image.specs.Refusals.{most_steps};
ghost use Rattle.fliskadee.specs.Find.{answer, find_of, packed_of};
ghost use Rattle.fliskadee.specs.Answer.{answer_of};
ghost use Rattle.fliskadee.specs.Interface.{interface_number};
ghost use Rattle.fliskadee.specs.Parts.{part_number};

use answer::{Answer, Refusal};
use causes::list_causes;
use draw_list::check_list;
use image::admission::{read_image, run_refusal};
use image::bytes::write_image;
use memory::addresses::Virt;
use run::{End, run_until};
use saved::{load_machine, save_machine};
use window::part_of;

// The run of the machine that an image, RAM and pad describe, ended by a bit of the mask: how it ended, and the steps completed.
fn run_with(
    image: &mut [u8],
    ram: &mut [u8],
    pad: &mut [u8],
    count: u64,
    mask: u32,
) -> Result<(End, u64), Refusal>
    ensures is { answer (packed_of result) image.new (memory ram.new pad.new) ≡ find_of image.old (memory ram.old pad.old) count mask }
    ensures most { IfOk result (λ x. x.1 ≤ most_steps) }
{
    let a = read_image(image);
    run_refusal(a.refusal, ram, pad, count)?;
    let mut r = a.registers;
    let mut g = a.geometry;
    let d = run_until(a.control, &mut r, &mut g, ram, pad, count, mask);
    write_image(image, d.control, &r, &g);
    Ok((d.end, d.steps))
}

// What a run answers, in one number for C: code × 1,048,576 + steps completed.
fn packed(run: Result<(End, u64), Refusal>) -> u64
    requires { IfOk run (λ x. x.1 ≤ most_steps) }
    ensures { result ≡ packed_of run }
{
    match run {
        Ok((end, steps)) => end.code() * 0x10_0000 + steps,
        Err(e) => e.code() * 0x10_0000,
    }
}

// At most count steps of the machine that an image, RAM and pad describe. This call and the next differ in the mask alone: the interface
// for C has both.
pub fn fliskadee_run(image: &mut [u8], ram: &mut [u8], pad: &mut [u8], count: u64) -> u64
    ensures { answer result image.new (memory ram.new pad.new) ≡ answer_of image.old (memory ram.old pad.old) count }
{
    packed(run_with(image, ram, pad, count, 0))
}

// The same, ended after the first step at which a bit of the mask comes up in FLAG: code 16.
pub fn fliskadee_find_flag(
    image: &mut [u8],
    ram: &mut [u8],
    pad: &mut [u8],
    count: u64,
    mask: u32,
) -> u64
    ensures { answer result image.new (memory ram.new pad.new) ≡ find_of image.old (memory ram.old pad.old) count mask }
{
    packed(run_with(image, ram, pad, count, mask))
}

// The window, as C can take it: in one number, which memory it is in, where it begins there, and how long it is.
pub fn fliskadee_window(ram: &[u8], pad: &[u8], address: u32, n: u64) -> u64
    ensures { result ≡ part_number (window_part (memory ram.now pad.now) address n) }
{
    let p = part_of(Virt(address), n as usize, ram.len(), pad.len());
    let place = (p.at as u64) * 0x1_0000_0000 + p.length as u64;
    if p.pad {
        0x8000_0000_0000_0000 + place
    } else {
        place
    }
}

// Why bits of FLAG are set by a GTE command on the machine of an image: rows of five words.
pub fn fliskadee_causes(image: &[u8], word: u32, words: &mut [u32]) -> Answer
    ensures { Causes image.now word words.old result words.new }
{
    list_causes(image, word, words)
}

// A machine written as one file to the front of the space.
pub fn fliskadee_save(image: &[u8], ram: &[u8], pad: &[u8], space: &mut [u8]) -> Answer
    ensures { saved result.code result.number space.new ≡ save_of image.now ram.now pad.now space.old }
{
    save_machine(image, ram, pad, space)
}

// The machine of a file, read into image, RAM and pad.
pub fn fliskadee_load(file: &[u8], image: &mut [u8], ram: &mut [u8], pad: &mut [u8]) -> Answer
    ensures { Loads file.now image.old ram.old pad.old (loaded result.code result.number image.new ram.new pad.new) }
{
    load_machine(file, image, ram, pad)
}

// Whether graphics words are whole packets: how many, or by which code and at which word they are refused.
pub fn fliskadee_draw_list(words: &[u32]) -> Answer
    ensures { Answered words.now result.code result.number }
{
    check_list(words)
}

// Which interface the library was built with, so that a host can tell a header that is not its own (FLISKADEE_INTERFACE there).
pub fn fliskadee_interface() -> u32
    ensures { result ≡ interface_number }
{
    2
}
