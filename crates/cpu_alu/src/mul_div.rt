// Multiplication and division of words: HI and LO.
ghost use Rattle.std.specs.Prelude.{◌≡◌, ◌+◌, ◌*◌, ◌/◌, ◌^◌, ◌<◌, pos, if◌then◌else◌, ◌≢◌, int_div, int_rem};
ghost use Rattle.integers.specs.Floor.{mod_z};
ghost use Rattle.cpu_alu.specs.MulDiv.{product_of, unsigned_product_of, quotient_of, unsigned_quotient_of};

use words::shifts::low_word;
use words::signed::to_signed;

// The HI and LO registers.
#[derive(Clone, Copy)]
pub struct HiLo {
    pub hi: u32,
    pub lo: u32,
}

// The one multiplication here (02, Ticket 4): both factors are below 65,536, so 32 bits hold the product.
fn times(x: u32, y: u32) -> u32
    requires { (x < 65536) × (y < 65536) }
    ensures { result ≡ x * y }
{
    x * y
}

// What a sum of two words carries out of 32 bits.
fn carry(x: u32, y: u32) -> u32
    ensures { result ≡ (x + y) / 2 ^ 32 }
{
    u32::from(x.wrapping_add(y) < x)
}

// The unsigned product from 16-bit halves. The carries are taken one by one: a compiler makes one wide product of a sum of the middle
// products.
#[tactic(auto, using(crate::proofs::Product::unsigned_words))]
fn multiply_unsigned(a: u32, b: u32) -> HiLo
    ensures { result ≡ unsigned_product_of a b }
{
    let a1 = a >> 16;
    let a0 = a % 65536;
    let b1 = b >> 16;
    let b0 = b % 65536;
    let low = times(a0, b0);
    let middle = times(a0, b1);
    let other = times(a1, b0);
    let high = times(a1, b1);
    let part = low.wrapping_add(middle << 16);
    HiLo {
        hi: high
            + (middle >> 16)
            + (other >> 16)
            + carry(low, middle << 16)
            + carry(part, other << 16),
        lo: part.wrapping_add(other << 16),
    }
}

// x where the sign bit of a word is set, else 0.
fn where_negative(word: u32, x: u32) -> u32
    ensures { result ≡ word / 2 ^ 31 * x }
{
    if word < 0x8000_0000 { 0 } else { x }
}

// MULT (signed) and MULTU: the product of 64 bits. In the unsigned one a negative factor counts 2^32 too much, times the other factor:
// LO is the same, and HI less the other factor. One function for both, so that the code stands once in the step.
#[tactic(auto, using(crate::proofs::Product::signed_words))]
pub fn multiply(signed: bool, a: u32, b: u32) -> HiLo
    ensures { result ≡ (if signed then product_of a b else unsigned_product_of a b) }
{
    let p = multiply_unsigned(a, b);
    if signed {
        let part = p.hi.wrapping_sub(where_negative(a, b));
        return HiLo {
            hi: part.wrapping_sub(where_negative(b, a)),
            ..p
        };
    }
    p
}

// DIV by a number that is not 0.
fn divide_nonzero(x: i32, y: i32) -> HiLo
    requires { y ≢ pos 0 }
    ensures { result ≡ record { hi = mod_z (int_rem x y) (2 ^ 32); lo = mod_z (int_div x y) (2 ^ 32) } }
{
    let p = x as i64;
    let q = y as i64;
    HiLo {
        hi: low_word(p % q),
        lo: low_word(p / q),
    }
}

// DIV: remainder and quotient toward zero, with 01's answers for a divisor of 0.
#[tactic(auto, using(std::proofs::lemmas::Bool::Decides::nat_tests, integers::specs::Bound::back), unfolding(crate::specs::MulDiv::quotient_of))]
pub fn divide(a: u32, b: u32) -> HiLo
    ensures { result ≡ quotient_of a b }
{
    if b == 0 {
        if to_signed(a) < 0 {
            return HiLo { hi: a, lo: 1 };
        }
        return HiLo {
            hi: a,
            lo: 0xffff_ffff,
        };
    }
    divide_nonzero(to_signed(a), to_signed(b))
}

// DIVU: the same of unsigned words.
#[tactic(auto, using(std::proofs::lemmas::Bool::Decides::nat_tests), unfolding(crate::specs::MulDiv::unsigned_quotient_of))]
pub fn divide_unsigned(a: u32, b: u32) -> HiLo
    ensures { result ≡ unsigned_quotient_of a b }
{
    if b == 0 {
        return HiLo {
            hi: a,
            lo: 0xffff_ffff,
        };
    }
    HiLo {
        hi: a % b,
        lo: a / b,
    }
}
