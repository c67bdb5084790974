// Addresses: segments, alignment, and where in RAM or in the scratch pad an address lies.
ghost use Rattle.std.specs.Prelude.{◌≡◌, ◌+◌, ◌*◌, ◌/◌, ◌%◌, ◌<◌, ◌≤◌, true, ◌&&◌, ltb, leb};
ghost use Rattle.memory.specs.Addresses.{ram_length, mapped, physical_of, pad_base, pad_length, in_pad, pad_at, beyond_ram, segment_of, place_of, direct_of};

// A virtual address: PC, or a base plus an offset.
#[derive(Clone, Copy, Debug, PartialEq, Eq)]
pub struct Virt(pub u32);

// A physical address: a place among RAM's bytes, or in the scratch pad.
#[derive(Clone, Copy, Debug, PartialEq, Eq)]
pub struct Phys(pub u32);

// Where a virtual address lies.
#[derive(Clone, Copy, Debug, PartialEq, Eq)]
pub enum Place {
    Ram(Phys),
    Pad(Phys),
}

// Why an access is refused: nothing answers at the address, or it is not aligned or not for the mode.
#[derive(Clone, Copy, Debug, PartialEq, Eq)]
pub enum Fault {
    Bus,
    Address,
}

// A RAM length that is run; any other is code 3, and empties a window.
#[tactic(auto, unfolding(crate::specs::Addresses::ram_length))]
pub fn ram_length(n: usize) -> bool
    ensures { result ≡ ram_length n }
{
    n % 4 == 0 && (4..=2097152).contains(&n)
}

impl Phys {
    fn is_in_pad(self) -> bool
        ensures { result ≡ (leb pad_base self.0 && ltb self.0 (pad_base + pad_length)) }
    {
        (0x1f80_0000..0x1f80_0400).contains(&self.0)
    }

    // The place among the scratch pad's bytes, of an address that lies there.
    pub fn pad_place(self) -> usize
        requires { pad_base ≤ self.0 }
        ensures { result ≡ pad_at self }
    {
        (self.0 - 0x1f80_0000) as usize
    }
}

impl Virt {
    // The top three bits, which tell the segment.
    fn segment(self) -> u32
        ensures { result ≡ self.0 / 0x2000_0000 }
    {
        self.0 / 0x2000_0000
    }

    fn physical(self) -> Phys
        ensures { result ≡ physical_of self.0 }
    {
        Phys(self.0 % 0x2000_0000)
    }

    #[tactic(auto, unfolding(crate::specs::Addresses::mapped))]
    fn is_in_ram(self, len: usize) -> bool
        ensures { result ≡ (mapped self.0 && ltb (self.0 % 0x2000_0000) len) }
    {
        matches!(self.segment(), 0 | 4 | 5) && (self.physical().0 as usize) < len
    }

    #[tactic(auto, unfolding(crate::specs::Addresses::in_pad))]
    fn is_in_pad(self) -> bool
        ensures { result ≡ in_pad self.0 }
    {
        matches!(self.segment(), 0 | 4) && self.physical().is_in_pad()
    }
}

// The segment translation of an address that is not in RAM.
#[tactic(auto, unfolding(crate::specs::Addresses::beyond_ram))]
pub(crate) fn beyond_ram(v: Virt) -> Result<Place, Fault>
    ensures { result ≡ beyond_ram v.0 }
{
    if v.is_in_pad() {
        Ok(Place::Pad(v.physical()))
    } else {
        Err(Fault::Bus)
    }
}

// The segment translation, for any address and without a test of mode or alignment.
#[tactic(auto, unfolding(crate::specs::Addresses::segment_of))]
pub fn translate(v: Virt, len: usize) -> Result<Place, Fault>
    ensures { result ≡ segment_of v.0 len }
{
    if v.is_in_ram(len) {
        Ok(Place::Ram(v.physical()))
    } else {
        beyond_ram(v)
    }
}

// The word of an address among RAM's words, in one number: an address that is not aligned, or has one of the bits 29 and
// 30 set, gives a number that is above every length.
fn word_index(a: u32) -> u32
    ensures is { result ≡ a % 0x8000_0000 / 4 + a % 0x8000_0000 % 4 * 0x4000_0000 }
    ensures word { a < 0x1_0000_0000 }
{
    let x = a % 0x8000_0000;
    x / 4 + x % 4 * 0x4000_0000
}

// The segment translation of a word that is fetched or loaded in kernel mode, by one test: most words lie in RAM. Of any other
// word `locate` tells where it lies.
pub(crate) fn translate_word(v: Virt, len: usize) -> Option<Phys>
    requires { ram_length len ≡ true }
    ensures is { result ≡ direct_of v.0 len }
    ensures word { v.0 < 0x1_0000_0000 }
{
    let k = word_index(v.0);
    if (k as usize) < len / 4 {
        Some(Phys(k * 4))
    } else {
        None
    }
}

// Where a virtual address lies, with its tests in their order.
#[tactic(auto, unfolding(crate::specs::Addresses::place_of))]
pub(crate) fn locate(v: Virt, align: u32, user: bool, len: usize) -> Result<Place, Fault>
    requires { 0 < align }
    ensures { result ≡ place_of v.0 align user len }
{
    if v.0 % align != 0 || user && 0x8000_0000 <= v.0 {
        return Err(Fault::Address);
    }
    translate(v, len)
}
