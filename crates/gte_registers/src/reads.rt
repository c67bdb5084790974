// Registers as MFC2, CFC2 and SWC2 see them.
ghost use Rattle.std.specs.Prelude.{◌≡◌, ◌%◌, ◌<◌, length};
ghost use Rattle.gte_registers.specs.Registers.{reg, field, fields_of, leading, view};
ghost use Rattle.gte_arithmetic.specs.Checks.{flag_word};

use words::signed::{low_half, sign_extend_16, zero_extend_16};

// A lent array's list has as many elements as its type says: a fact for callers, and no code.
pub fn sized(c: &[u32; 64])
    ensures { length c.now ≡ 64 }
{}

// The five-bit field of an IR.
#[tactic(auto, unfolding(crate::specs::Registers::field, integers::specs::Clamp::clamp))]
fn field_of(x: u32) -> u32
    ensures is { result ≡ field x }
    ensures small { result < 32 }
{
    (i32::from(low_half(x)) >> 7).clamp(0, 31) as u32
}

// IRGB and ORGB.
#[tactic(auto, unfolding(crate::specs::Registers::fields_of))]
fn join_fields(a: u32, b: u32, d: u32) -> u32
    ensures { result ≡ fields_of a b d }
{
    field_of(a) + field_of(b) * 32 + field_of(d) * 1024
}

// LZCR: the leading bits that are equal to the sign.
#[tactic(auto, using(crate::proofs::Leading::leading_low, crate::proofs::Leading::leading_high))]
fn leading_bits(x: u32) -> u32
    ensures { result ≡ leading x }
{
    if x < 0x8000_0000 {
        x.leading_zeros()
    } else {
        x.leading_ones()
    }
}

// FLAG: bits 30..12, and bit 31 where one of 30..23 and 18..13 is set.
#[tactic(auto, unfolding(gte_arithmetic::specs::Checks::flag_word))]
fn flag_bits(f: u32) -> u32
    ensures { result ≡ flag_word f }
{
    if f & 0x7f87_e000 == 0 {
        f & 0x7fff_f000
    } else {
        0x8000_0000 + (f & 0x7fff_f000)
    }
}

// What a read of register i returns.
pub fn read(c: &[u32; 64], i: usize) -> u32
    ensures { result ≡ reg (view c.now) (i % 64) }
{
    let k = i % 64;
    let w = c[k];
    // An arm for each number: the compiler turns neighbours behind one `|` into comparisons, and the proof then has a case
    // for each gap between them.
    match k {
        1 => sign_extend_16(w),
        3 => sign_extend_16(w),
        5 => sign_extend_16(w),
        7 => zero_extend_16(w),
        8 => sign_extend_16(w),
        9 => sign_extend_16(w),
        10 => sign_extend_16(w),
        11 => sign_extend_16(w),
        15 => c[14],
        16 => zero_extend_16(w),
        17 => zero_extend_16(w),
        18 => zero_extend_16(w),
        19 => zero_extend_16(w),
        28 => join_fields(c[9], c[10], c[11]),
        29 => join_fields(c[9], c[10], c[11]),
        31 => leading_bits(c[30]),
        36 => sign_extend_16(w),
        44 => sign_extend_16(w),
        52 => sign_extend_16(w),
        58 => sign_extend_16(w),
        59 => sign_extend_16(w),
        61 => sign_extend_16(w),
        62 => sign_extend_16(w),
        63 => flag_bits(w),
        _ => w,
    }
}
