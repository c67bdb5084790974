// Whose an instruction is: the processor's or a coprocessor's.
ghost use Rattle.std.specs.Prelude.{◌≡◌};
ghost use Rattle.cpu_decode.specs.Owners.{owner_of, number_of};

// Whose instruction it is.
#[derive(Clone, Copy, Debug, PartialEq, Eq)]
pub enum Owner {
    Processor,
    Coprocessor0,
    Coprocessor1,
    Coprocessor2,
    Coprocessor3,
}

// Whose instruction it is, reserved or not.
#[tactic(auto, unfolding(crate::specs::Owners::owners, crate::specs::Owners::owner_of))]
pub fn owner_of(word: u32) -> Owner
    ensures { result ≡ owner_of word }
{
    // Bit 30 is set in every coprocessor's word: most words need no more than this test.
    if word / 0x4000_0000 % 2 == 0 {
        return Owner::Processor;
    }
    match word / 0x400_0000 {
        0x10 => Owner::Coprocessor0,
        0x11 | 0x31 | 0x39 => Owner::Coprocessor1,
        0x12 | 0x32 | 0x3a => Owner::Coprocessor2,
        0x13 | 0x33 | 0x3b => Owner::Coprocessor3,
        _ => Owner::Processor,
    }
}

// The number of a coprocessor, for CE in CAUSE.
pub fn number(o: Owner) -> u32
    ensures { result ≡ number_of o }
{
    match o {
        Owner::Processor | Owner::Coprocessor0 => 0,
        Owner::Coprocessor1 => 1,
        Owner::Coprocessor2 => 2,
        Owner::Coprocessor3 => 3,
    }
}
