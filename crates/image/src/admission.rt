// What is read of an image, and which calls are refused.
ghost use Rattle.std.specs.Prelude.{cond, [], ◌≡◌, replicate};
ghost use Rattle.answer.specs.Codes.{code_in};
ghost use Rattle.memory.specs.Memory.{memory};
ghost use Rattle.image.specs.Formed.{formed};
ghost use Rattle.image.specs.Image.{registers_in, control_in, geometry_in, control_of};
ghost use Rattle.image.specs.Refusals.{first_of, memory_tests, words_or, image_refusal, refusal_after};

use crate::bytes::control_from;
use crate::formed::well_formed;
use answer::Refusal;
use byte_order::read_words;
use cpu_state::control::Control;
use memory::addresses::ram_length;

// The words of an image as a machine, and why the image is refused: for its length or its form. An image that is not 432 bytes long
// is read as zeros.
#[derive(Drop)]
pub struct Read {
    pub refusal: Result<(), Refusal>,
    pub control: Control,
    pub registers: [u32; 32],
    pub geometry: [u32; 64],
}

// Words that are not well formed are refused.
fn form_refusal(r: &[u32; 32], w: &[u32; 12], g: &[u32; 64]) -> Result<(), Refusal>
    ensures { code_in result ≡ cond (formed r.now w.now g.now) 0 2 }
{
    if well_formed(r, w, g) {
        Ok(())
    } else {
        Err(Refusal::ImageForm)
    }
}

// The image's part of the refusals, for every call that takes one.
#[tactic(auto, unfolding(crate::specs::Refusals::image_refusal, crate::specs::Refusals::first_of))]
pub fn read_image(image: &[u8]) -> Read
    ensures refusal { code_in result.refusal ≡ image_refusal image.now }
    ensures control { result.control ≡ control_of (words_or image.now (control_in image.now) (replicate 12 0)) }
    ensures registers { result.registers ≡ words_or image.now (registers_in image.now) (replicate 32 0) }
    ensures geometry { result.geometry ≡ words_or image.now (geometry_in image.now) (replicate 64 0) }
{
    let mut r = [0u32; 32];
    let mut w = [0u32; 12];
    let mut g = [0u32; 64];
    if image.len() != 432 {
        return Read {
            refusal: Err(Refusal::ImageLength),
            control: control_from(&w),
            registers: r,
            geometry: g,
        };
    }
    read_words(image, 0, &mut r);
    read_words(image, 128, &mut w);
    read_words(image, 176, &mut g);
    Read {
        refusal: form_refusal(&r, &w, &g),
        control: control_from(&w),
        registers: r,
        geometry: g,
    }
}

// The same of the COP2 words alone: they go to the lent ones, which keep what they have where the image is not 432 bytes long. It reads
// on its own, since `read_image` becomes part of the run only as long as nothing else calls it.
#[tactic(auto, unfolding(crate::specs::Refusals::image_refusal, crate::specs::Refusals::first_of))]
pub fn read_geometry(image: &[u8], g: &mut [u32; 64]) -> Result<(), Refusal>
    ensures is { code_in result ≡ image_refusal image.now }
    ensures words { g.new ≡ words_or image.now (geometry_in image.now) g.old }
{
    let mut r = [0u32; 32];
    let mut w = [0u32; 12];
    if image.len() != 432 {
        return Err(Refusal::ImageLength);
    }
    read_words(image, 0, &mut r);
    read_words(image, 128, &mut w);
    read_words(image, 176, g);
    form_refusal(&r, &w, g)
}

// Refused for the length of RAM or the pad's: a save and a load. The run makes the two tests itself, since each of its steps takes two
// instructions more where it asks here.
#[tactic(auto, unfolding(crate::specs::Refusals::first_of))]
pub fn memory_refusal(ram: usize, pad: usize) -> Result<(), Refusal>
    ensures { code_in result ≡ first_of (memory_tests ram pad []) }
{
    if !ram_length(ram) {
        return Err(Refusal::RamLength);
    }
    if pad != 1024 {
        return Err(Refusal::PadLength);
    }
    Ok(())
}

// The run's refusal: that of its image, else for RAM's length, the pad's or the count.
#[tactic(auto, using(answer::proofs::Codes::has_code), unfolding(crate::specs::Refusals::refusal_after, crate::specs::Refusals::first_of))]
pub fn run_refusal(
    image: Result<(), Refusal>,
    ram: &[u8],
    pad: &[u8],
    count: u64,
) -> Result<(), Refusal>
    ensures { code_in result ≡ refusal_after (code_in image) (memory ram.now pad.now) count }
{
    image?;
    if !ram_length(ram.len()) {
        return Err(Refusal::RamLength);
    }
    if pad.len() != 1024 {
        return Err(Refusal::PadLength);
    }
    if count > 1_000_000 {
        return Err(Refusal::Count);
    }
    Ok(())
}

// The same in numbers, after any code of the image's, one that no refusal has too; 0 where none applies.
#[tactic(auto, unfolding(crate::specs::Refusals::refusal_after))]
pub fn refusal(image: u64, ram: &[u8], pad: &[u8], count: u64) -> u64
    ensures { result ≡ refusal_after image (memory ram.now pad.now) count }
{
    if image != 0 {
        return image;
    }
    match run_refusal(Ok(()), ram, pad, count) {
        Ok(()) => 0,
        Err(e) => e.code(),
    }
}
