// A saved machine: written to the space that a host lends, and read from a file into the buffers that it lends. Carries 02, Ticket 3.

#![tactic(auto)]

ghost use Rattle.std.specs.Prelude.{◌≡◌, ◌+◌, ◌<◌, ◌≤◌, length, drop};
ghost use Rattle.std.proofs.lemmas.List.Edits.{sets};
ghost use Rattle.answer.specs.Codes.{answer_of, code_in, number_in};
ghost use Rattle.byte_order.specs.Bytes.{words_at};
ghost use Rattle.image.specs.Formed.{formed};
ghost use Rattle.saved_format.specs.Format.{Machine, Means};
ghost use Rattle.saved_format.specs.Writing.{full_blocks, ram_in, blocks_length, file_length};
ghost use Rattle.saved.specs.Refusals.{length_code, Lent};
ghost use Rattle.saved.specs.Save.{saved, save_of};
ghost use Rattle.saved.specs.Load.{loaded, load_of, Loads};
ghost use Rattle.saved.specs.Parts.{fields_of, image_in, pad_in};

use answer::{Answer, Refusal};
use byte_order::read_words;
use image::admission::memory_refusal;
use image::formed::well_formed;
use saved_check::check;
use saved_copy::{copy, put_blocks, put_field, take_blocks};

// Refused for the length of the image, of RAM or of the pad.
#[tactic(auto, unfolding(crate::specs::Refusals::length_code, image::specs::Refusals::first_of))]
fn length_refusal(image: usize, ram: usize, pad: usize) -> Result<(), Refusal>
    ensures { code_in result ≡ length_code image ram pad }
{
    if image != 432 {
        return Err(Refusal::ImageLength);
    }
    memory_refusal(ram, pad)
}

// The image whose words 0..43 and COP2 words stand at two places is well formed.
fn words_formed(m: &[u8], at: usize, geometry: usize) -> bool
    requires { (at + 176 ≤ length m.now) × (geometry + 256 ≤ length m.now) }
    ensures { result ≡ formed (words_at m.now at 32) (words_at m.now (at + 128) 12) (words_at m.now geometry 64) }
{
    let mut r = [0u32; 32];
    let mut w = [0u32; 12];
    let mut g = [0u32; 64];
    read_words(m, at, &mut r);
    read_words(m, at + 128, &mut w);
    read_words(m, geometry, &mut g);
    well_formed(&r, &w, &g)
}

// The bytes of the blocks of n bytes of RAM.
fn blocks_length(n: usize) -> usize
    requires { (1 ≤ n) × (n ≤ 2097152) }
    ensures { result ≡ blocks_length n }
{
    n + 3 * ((n - 1) / 32768 + 1)
}

// The fields of a machine, stored from the first byte on.
fn put_machine(out: &mut [u8], image: &[u8], ram: &[u8], pad: &[u8])
    requires lent { Lent (length image.now) (length ram.now) (length pad.now) }
    requires space { file_length (length ram.now) ≤ length out.old }
    ensures { out.new ≡ sets out.old 0 (fields_of image.now ram.now pad.now) }
{
    let at = 438 + blocks_length(ram.len());
    put_field(out, 0, 1, &image[0..176]);
    put_field(out, 179, 2, &image[176..432]);
    put_blocks(out, 438, ram);
    put_field(out, at, 4, pad);
    put_field(out, at + 1027, 0, &pad[0..0]);
}

// The machine of a well-formed file whose RAM is as long as the lent RAM.
fn take_machine(file: &[u8], image: &mut [u8], ram: &mut [u8], pad: &mut [u8])
    requires lent { Lent (length image.old) (length ram.old) (length pad.old) }
    requires long { file_length (length ram.old) ≤ length file.now }
    ensures image { image.new ≡ image_in file.now }
    ensures ram { ram.new ≡ ram_in (full_blocks (length ram.old)) (length ram.old) (drop 438 file.now) }
    ensures pad { pad.new ≡ pad_in (length ram.old) file.now }
{
    let at = 441 + blocks_length(ram.len());
    copy(image, 0, &file[3..179]);
    copy(image, 176, &file[182..438]);
    take_blocks(ram, file, 438);
    copy(pad, 0, &file[at..at + 1024]);
}

// A machine written to the front of the space: how many bytes were used, or a refusal of code 1, 3, 6, 2 or 8, in this order.
#[tactic(auto, using(crate::proofs::Calls::lent, crate::proofs::Calls::save_refused))]
fn save(image: &[u8], ram: &[u8], pad: &[u8], space: &mut [u8]) -> Result<u64, Refusal>
    ensures { saved (answer_of result).code (answer_of result).number space.new ≡ save_of image.now ram.now pad.now space.old }
{
    length_refusal(image.len(), ram.len(), pad.len())?;
    if !words_formed(image, 0, 176) {
        return Err(Refusal::ImageForm);
    }
    let n = 1468 + blocks_length(ram.len());
    if space.len() < n {
        return Err(Refusal::Space(0));
    }
    put_machine(space, image, ram, pad);
    Ok(n as u64)
}

// The same as a code and a number.
pub fn save_machine(image: &[u8], ram: &[u8], pad: &[u8], space: &mut [u8]) -> Answer
    ensures { saved result.code result.number space.new ≡ save_of image.now ram.now pad.now space.old }
{
    Answer::from(save(image, ram, pad, space))
}

// The rest of a load, of a well-formed file and buffers of the right lengths: codes 2 and 8, and then the machine.
fn load_formed(file: &[u8], image: &mut [u8], ram: &mut [u8], pad: &mut [u8]) -> Result<(), Refusal>
    requires lent { Lent (length image.old) (length ram.old) (length pad.old) }
    requires long { 1472 ≤ length file.now }
    ensures { (m : Machine) → Means file.now m → loaded (code_in result) (number_in result) image.new ram.new pad.new ≡ load_of m image.old ram.old pad.old }
{
    if !words_formed(file, 3, 182) {
        return Err(Refusal::ImageForm);
    }
    if file.len() != 1468 + blocks_length(ram.len()) {
        return Err(Refusal::Space(0));
    }
    take_machine(file, image, ram, pad);
    Ok(())
}

// A machine read from a file into the lent buffers, or a refusal of code 1, 3, 6, 7, 2 or 8, in this order. Nothing is stored before all
// are tested.
#[tactic(auto, using(crate::proofs::Calls::lent))]
fn load(file: &[u8], image: &mut [u8], ram: &mut [u8], pad: &mut [u8]) -> Result<(), Refusal>
    ensures { Loads file.now image.old ram.old pad.old (loaded (code_in result) (number_in result) image.new ram.new pad.new) }
{
    length_refusal(image.len(), ram.len(), pad.len())?;
    match check(file) {
        Ok(()) => load_formed(file, image, ram, pad),
        Err(m) => Err(Refusal::File(m.0 as u64)),
    }
}

// The same as a code and a number.
pub fn load_machine(file: &[u8], image: &mut [u8], ram: &mut [u8], pad: &mut [u8]) -> Answer
    ensures { Loads file.now image.old ram.old pad.old (loaded result.code result.number image.new ram.new pad.new) }
{
    Answer::from(load(file, image, ram, pad))
}
