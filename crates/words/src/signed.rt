// Bits read as signed numbers, and back.
ghost use Rattle.std.specs.Prelude.{◌≡◌};
ghost use Rattle.std.specs.Int.{w8, w16, w32};
ghost use Rattle.std.proofs.Common.{to_z, of_z};
ghost use Rattle.words.specs.Words.{low_signed, high_half, sign_extend, zero_extend};

// A word read in two's complement.
pub fn to_signed(x: u32) -> i32
    ensures { result ≡ to_z w32 x }
{
    x.cast_signed()
}

// The bits of a signed word.
pub fn to_bits(x: i32) -> u32
    ensures { result ≡ of_z w32 x }
{
    x.cast_unsigned()
}

// The low byte, signed.
fn low_byte(x: u32) -> i8
    ensures { result ≡ low_signed w8 x }
{
    ((x % 0x100) as u8).cast_signed()
}

// The low half, signed.
pub fn low_half(x: u32) -> i16
    ensures { result ≡ low_signed w16 x }
{
    ((x % 0x1_0000) as u16).cast_signed()
}

// The high half, signed.
pub fn high_half(x: u32) -> i16
    ensures { result ≡ high_half x }
{
    low_half(x / 0x1_0000)
}

// The low byte with its sign, as a word (LB).
pub fn sign_extend_8(x: u32) -> u32
    ensures { result ≡ sign_extend w8 x }
{
    to_bits(i32::from(low_byte(x)))
}

// The low half with its sign, as a word (LH, 16-bit immediates, the signed 16-bit registers of COP2).
pub fn sign_extend_16(x: u32) -> u32
    ensures { result ≡ sign_extend w16 x }
{
    to_bits(i32::from(low_half(x)))
}

// The low half with zeros above it (the unsigned 16-bit registers of COP2).
pub fn zero_extend_16(x: u32) -> u32
    ensures { result ≡ zero_extend w16 x }
{
    x % 0x1_0000
}
