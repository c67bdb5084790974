// What C links (include/fliskadee.h): each call of the library fliskadee under its own name, with its contract again. A crate is a
// library for other crates or one for C, and not both.

#![tactic(auto)]

ghost use Rattle.std.specs.Prelude.{◌≡◌};
ghost use Rattle.memory.specs.Memory.{memory};
ghost use Rattle.window.specs.Window.{window_part};
ghost use Rattle.causes.specs.Causes.{Causes};
ghost use Rattle.draw_list.specs.Packets.{Answered};
ghost use Rattle.saved.specs.Save.{saved, save_of};
ghost use Rattle.saved.specs.Load.{loaded, Loads};
ghost use Rattle.fliskadee.specs.Find.{answer, find_of};
ghost use Rattle.fliskadee.specs.Answer.{answer_of};
ghost use Rattle.fliskadee.specs.Interface.{interface_number};
ghost use Rattle.fliskadee.specs.Parts.{part_number};

use answer::Answer;

// At most count steps of the machine that an image, RAM and pad describe.
#[unsafe(no_mangle)]
pub extern "C" fn fliskadee_run(image: &mut [u8], ram: &mut [u8], pad: &mut [u8], count: u64) -> u64
    ensures { answer result image.new (memory ram.new pad.new) ≡ answer_of image.old (memory ram.old pad.old) count }
{
    fliskadee::fliskadee_run(image, ram, pad, count)
}

// The same, ended after the first step at which a bit of the mask comes up in FLAG: code 16.
#[unsafe(no_mangle)]
pub extern "C" fn fliskadee_find_flag(
    image: &mut [u8],
    ram: &mut [u8],
    pad: &mut [u8],
    count: u64,
    mask: u32,
) -> u64
    ensures { answer result image.new (memory ram.new pad.new) ≡ find_of image.old (memory ram.old pad.old) count mask }
{
    fliskadee::fliskadee_find_flag(image, ram, pad, count, mask)
}

// The window, in one number: which memory it is in, where it begins there, and how long it is.
#[unsafe(no_mangle)]
pub extern "C" fn fliskadee_window(ram: &[u8], pad: &[u8], address: u32, n: u64) -> u64
    ensures { result ≡ part_number (window_part (memory ram.now pad.now) address n) }
{
    fliskadee::fliskadee_window(ram, pad, address, n)
}

// Why bits of FLAG are set by a GTE command on the machine of an image: rows of five words.
#[unsafe(no_mangle)]
pub extern "C" fn fliskadee_causes(image: &[u8], word: u32, words: &mut [u32]) -> Answer
    ensures { Causes image.now word words.old result words.new }
{
    fliskadee::fliskadee_causes(image, word, words)
}

// A machine written as one file to the front of the space.
#[unsafe(no_mangle)]
pub extern "C" fn fliskadee_save(image: &[u8], ram: &[u8], pad: &[u8], space: &mut [u8]) -> Answer
    ensures { saved result.code result.number space.new ≡ save_of image.now ram.now pad.now space.old }
{
    fliskadee::fliskadee_save(image, ram, pad, space)
}

// The machine of a file, read into image, RAM and pad.
#[unsafe(no_mangle)]
pub extern "C" fn fliskadee_load(
    file: &[u8],
    image: &mut [u8],
    ram: &mut [u8],
    pad: &mut [u8],
) -> Answer
    ensures { Loads file.now image.old ram.old pad.old (loaded result.code result.number image.new ram.new pad.new) }
{
    fliskadee::fliskadee_load(file, image, ram, pad)
}

// Whether graphics words are whole packets: how many, or by which code and at which word they are refused.
#[unsafe(no_mangle)]
pub extern "C" fn fliskadee_draw_list(words: &[u32]) -> Answer
    ensures { Answered words.now result.code result.number }
{
    fliskadee::fliskadee_draw_list(words)
}

// Which interface the library was built with, so that a host can tell a header that is not its own (FLISKADEE_INTERFACE there).
#[unsafe(no_mangle)]
pub extern "C" fn fliskadee_interface() -> u32
    ensures { result ≡ interface_number }
{
    fliskadee::fliskadee_interface()
}
