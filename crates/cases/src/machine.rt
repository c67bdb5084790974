// The machine under test, and the calls that a line may ask for: one each, over the lent bytes of image, RAM, pad and file.
use crate::buffer::Buffer;
use answer::Answer;
use memory::addresses::Virt;
use std::array;

// The words of an image that are not 0 in a fresh one.
const NEXT_PC: usize = 35;

const LZCR: usize = 75;

// How many words at the beginning of RAM a call can be lent.
const WORDS: usize = 600;

// How many bytes stand in RAM's buffer: some more than a machine may have.
pub(crate) const RAM: usize = 2097160;

// A GTE by itself, what the calls for C are lent, and a file of a saved machine.
#[derive(Drop)]
pub(crate) struct Machine<'a> {
    pub geometry: [u32; 64],
    pub image: Buffer<512>,
    // by reference, since a value of two million bytes would be moved with its machine
    pub ram: &'a mut Buffer<RAM>,
    pub pad: Buffer<2048>,
    pub file: Buffer<36000>,
}

// A code and a number as one: the number in the low 32 bits.
fn both(a: Answer) -> u64 {
    (a.code & 0xff) << 32 | a.number & 0xffff_ffff
}

// What a part of RAM or pad holds: its length, its last byte and its first; 0 where it is empty.
fn ends(part: &[u8]) -> u64 {
    let (Some(&first), Some(&last)) = (part.first(), part.last()) else {
        return 0;
    };
    (part.len() as u64 & 0xff_ffff) << 32 | u64::from(last) << 8 | u64::from(first)
}

// Each call answers nothing where more bytes are to be lent than there are.
impl<'a> Machine<'a> {
    // All zeros beside RAM, and nothing lent.
    pub fn new(ram: &'a mut Buffer<RAM>) -> Machine<'a> {
        Machine {
            geometry: [0; 64],
            image: Buffer::new(),
            ram,
            pad: Buffer::new(),
            file: Buffer::new(),
        }
    }

    // What a case begins with.
    pub fn reset(&mut self) {
        self.geometry = [0; 64];
        self.image.fill(0, 432);
        self.image.put_word(4 * NEXT_PC, 4);
        self.image.put_word(4 * LZCR, 32);
        self.ram.fill(0, 4096);
        self.pad.fill(0, 1024);
        self.file.fill(0xee, 0);
    }

    pub fn ram_word(&self, at: usize) -> u32 {
        self.ram.word(at)
    }

    // A command of the GTE: 0, or 1 where it is not listed.
    pub fn command(&mut self, word: u32) -> u64 {
        u64::from(gte::command(&mut self.geometry, word).is_err())
    }

    pub fn run(&mut self, count: u64) -> Option<u64> {
        let image = self.image.lent_mut()?;
        let ram = self.ram.lent_mut()?;
        let pad = self.pad.lent_mut()?;
        Some(fliskadee::fliskadee_run(image, ram, pad, count))
    }

    pub fn find(&mut self, count: u64, mask: u32) -> Option<u64> {
        let image = self.image.lent_mut()?;
        let ram = self.ram.lent_mut()?;
        let pad = self.pad.lent_mut()?;
        Some(fliskadee::fliskadee_find_flag(image, ram, pad, count, mask))
    }

    pub fn window(&self, address: u32, length: u32) -> Option<u64> {
        let ram = self.ram.lent()?;
        let pad = self.pad.lent()?;
        Some(fliskadee::fliskadee_window(ram, pad, address, u64::from(length)))
    }

    // The window as the part of RAM or pad itself, which no call from C can return.
    pub fn part(&self, address: u32, length: u32) -> Option<u64> {
        let ram = self.ram.lent()?;
        let pad = self.pad.lent()?;
        Some(ends(window::window(ram, pad, Virt(address), length as usize)))
    }

    // The causes of a command, with so many words lent, which then stand at the beginning of RAM with others behind.
    pub fn causes(&mut self, word: u32, space: usize) -> Option<u64> {
        let mut words = [0xeeee_eeee; WORDS];
        let a = fliskadee::fliskadee_causes(self.image.lent()?, word, words.get_mut(..space)?);
        let (places, _) = self.ram.bytes.as_chunks_mut();
        for (place, w) in places.iter_mut().zip(&words) {
            *place = w.to_le_bytes();
        }
        Some(both(a))
    }

    // The check of so many words of RAM as a draw list.
    pub fn draw_list(&self, length: usize) -> Option<u64> {
        let words: [u32; WORDS] = array::from_fn(|i| self.ram.word(4 * i));
        Some(both(fliskadee::fliskadee_draw_list(words.get(..length)?)))
    }

    // The machine saved to so many bytes of the file.
    pub fn save(&mut self, space: usize) -> Option<u64> {
        self.file.lent = space;
        let image = self.image.lent()?;
        let ram = self.ram.lent()?;
        let pad = self.pad.lent()?;
        let file = self.file.lent_mut()?;
        Some(both(fliskadee::fliskadee_save(image, ram, pad, file)))
    }

    // The machine loaded from so many bytes of the file.
    pub fn load(&mut self, length: usize) -> Option<u64> {
        self.file.lent = length;
        let file = self.file.lent()?;
        let image = self.image.lent_mut()?;
        let ram = self.ram.lent_mut()?;
        let pad = self.pad.lent_mut()?;
        Some(both(fliskadee::fliskadee_load(file, image, ram, pad)))
    }

    // A digest of image, RAM, pad and file.
    pub fn digest(&self) -> u64 {
        let image = self.image.digest(0);
        let ram = self.ram.digest(image);
        let pad = self.pad.digest(ram);
        self.file.digest(pad)
    }
}
