// What a call answers that has a number beside its code, and why calls are refused. Carries 02: "code and number apart".

#![tactic(auto)]

ghost use Rattle.std.specs.Prelude.{◌≡◌};
ghost use Rattle.answer.specs.Codes.{code_of, number_of, refused_by, answer_of, done_or};

// A code of the calls' list, and a number that the code gives its meaning.
#[repr(C)]
#[derive(Clone, Copy)]
pub struct Answer {
    pub code: u64,
    pub number: u64,
}

// Why a call is refused, with the number that its code has beside it.
#[derive(Clone, Copy, Debug, PartialEq, Eq)]
pub enum Refusal {
    // the image is not 432 bytes long
    ImageLength,
    // the image is not well formed
    ImageForm,
    // RAM is not a multiple of 4 in 4..2,097,152 bytes
    RamLength,
    // more than a million steps
    Count,
    // the command is not one of the 22
    Command,
    // the pad is not 1,024 bytes long
    PadLength,
    // the file is no saved machine; the length of the longest beginning that it shares with one
    File(u64),
    // the lent space is too short; how much is needed, or 0 where the call does not say it
    Space(u64),
    // no packet has the top byte of this word of a list
    UnknownPacket(u64),
    // no packet begins at this word of a list, though the top byte is one of theirs
    CutPacket(u64),
}

impl Refusal {
    // The code of the calls' list.
    pub fn code(self) -> u64
        ensures { result ≡ code_of self }
    {
        match self {
            Refusal::ImageLength => 1,
            Refusal::ImageForm => 2,
            Refusal::RamLength => 3,
            Refusal::Count => 4,
            Refusal::Command => 5,
            Refusal::PadLength => 6,
            Refusal::File(_) => 7,
            Refusal::Space(_) => 8,
            Refusal::UnknownPacket(_) => 11,
            Refusal::CutPacket(_) => 12,
        }
    }

    // The number beside it.
    pub fn number(self) -> u64
        ensures { result ≡ number_of self }
    {
        match self {
            Refusal::File(n)
            | Refusal::Space(n)
            | Refusal::UnknownPacket(n)
            | Refusal::CutPacket(n) => n,
            _ => 0,
        }
    }
}

impl From<Refusal> for Answer {
    ghost from_gives = { λ e a. a ≡ refused_by e };

    fn from(e: Refusal) -> Answer {
        Answer {
            code: e.code(),
            number: e.number(),
        }
    }
}

// Code 0 with the number of a call that is not refused.
impl From<Result<u64, Refusal>> for Answer {
    ghost from_gives = { λ r a. a ≡ answer_of r };

    fn from(r: Result<u64, Refusal>) -> Answer {
        match r {
            Ok(number) => Answer { code: 0, number },
            Err(e) => Answer::from(e),
        }
    }
}

// The same of a call that has no number where it is not refused.
impl From<Result<(), Refusal>> for Answer {
    ghost from_gives = { λ r a. a ≡ done_or r };

    fn from(r: Result<(), Refusal>) -> Answer {
        Answer::from(r.map(|()| 0))
    }
}
