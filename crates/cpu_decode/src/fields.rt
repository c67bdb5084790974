// The fields of an instruction word.
ghost use Rattle.std.specs.Prelude.{◌≡◌};
ghost use Rattle.cpu_decode.specs.Fields.{fields_of, FieldsOk};

use words::signed::sign_extend_16;

// What instructions take from their word beside the operation. extended is the immediate with its sign, offset four times that
// (branches), target the word address of J and JAL times four.
#[derive(Clone, Copy)]
pub struct Fields {
    pub rt: usize,
    pub rd: usize,
    pub shift: u32,
    pub immediate: u32,
    pub extended: u32,
    pub offset: u32,
    pub target: u32,
    pub word: u32,
}

// The fields of a word that instructions use.
#[tactic(auto, unfolding(crate::specs::Fields::fields_of))]
pub fn fields_of(word: u32) -> Fields
    ensures is { result ≡ fields_of word }
    ensures widths { FieldsOk result }
{
    let extended = sign_extend_16(word);
    Fields {
        rt: (word / 0x1_0000 % 32) as usize,
        rd: (word / 0x800 % 32) as usize,
        shift: word / 64 % 32,
        immediate: word % 0x1_0000,
        extended,
        offset: extended << 2,
        target: word % 0x400_0000 * 4,
        word,
    }
}
