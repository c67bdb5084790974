// The exact values that commands start from. Carries 01 "GTE arithmetic": "Whole sums are tested, once", "The three matrices
// are three rows of three". Each value comes with a bound, so that the lines after it know that no 64-bit sum wraps.

#![tactic(auto)]

// Products of GPF, GPL, SQR, OP and NCLIP.
pub mod products;

// Colours and IR shifted up, as the colour commands begin.
pub mod tones;

// A translation plus a matrix times a vector.
pub mod transform;
