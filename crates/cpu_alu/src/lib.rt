// The processor's arithmetic. Carries 01 "One step": overflow, comparison, multiplication and division.

#![tactic(auto)]

// Multiplication and division: HI and LO.
pub mod mul_div;

// Signed sums with overflow, and comparison.
pub mod sums;
