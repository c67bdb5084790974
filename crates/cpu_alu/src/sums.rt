// Signed arithmetic of the processor: sums that may not fit, and comparison.
ghost use Rattle.std.specs.Prelude.{◌≡◌};
ghost use Rattle.cpu_alu.specs.Alu.{sum_of, difference_of, less_of};

use words::signed::{to_bits, to_signed};

// ADD and ADDI: no sum where it does not fit 32 signed bits, and then the instruction traps.
#[tactic(auto, using(crate::proofs::Checked::checked_words), unfolding(crate::specs::Alu::sum_of))]
pub fn add_signed(a: u32, b: u32) -> Option<u32>
    ensures { result ≡ sum_of a b }
{
    let sum = to_signed(a).checked_add(to_signed(b))?;
    Some(to_bits(sum))
}

// SUB: the same of a difference.
#[tactic(auto, using(crate::proofs::Checked::checked_words), unfolding(crate::specs::Alu::difference_of))]
pub fn sub_signed(a: u32, b: u32) -> Option<u32>
    ensures { result ≡ difference_of a b }
{
    let difference = to_signed(a).checked_sub(to_signed(b))?;
    Some(to_bits(difference))
}

// SLT and SLTI: 1 where the first is less, as signed numbers.
#[tactic(auto, using(integers::specs::Bound::back), unfolding(crate::specs::Alu::less_of))]
pub fn less_signed(a: u32, b: u32) -> u32
    ensures { result ≡ less_of a b }
{
    u32::from(to_signed(a) < to_signed(b))
}
