// Arithmetic shifts, which divide by a power of two and round down, and the low word of a wide number.
ghost use Rattle.std.specs.Prelude.{◌≡◌, ◌%◌, ◌^◌, ◌<◌};
ghost use Rattle.std.specs.Int.Signed.{shr_z};
ghost use Rattle.integers.specs.Floor.{mod_z};
ghost use Rattle.integers.specs.Wrap.{wrap};
ghost use Rattle.words.specs.Shifts.{sra_of};

use crate::signed::{to_bits, to_signed};

// SRA and SRAV: the word is shifted as a signed number, so the sign is kept. Only the low five bits of the amount count.
pub fn sra(x: u32, amount: u32) -> u32
    ensures { result ≡ sra_of x amount }
{
    to_bits(to_signed(x) >> (amount % 32))
}

// A wide number divided by 2^N, rounded down: by 12 for sf, and IR0 and OTZ from MAC0; by 16 for SX and SY.
pub fn shift_down<const N: u32>(x: i64) -> i64
    requires { N < 64 }
    ensures { result ≡ shr_z x (2 ^ N) }
{
    x >> N
}

// The low 32 bits, as a word.
pub fn low_word(x: i64) -> u32
    ensures { result ≡ mod_z x (2 ^ 32) }
{
    (x.cast_unsigned() % 0x1_0000_0000) as u32
}

// The low 32 bits, as a signed word.
pub fn low_signed(x: i64) -> i32
    ensures { result ≡ wrap (2 ^ 31) x }
{
    to_signed(low_word(x))
}
