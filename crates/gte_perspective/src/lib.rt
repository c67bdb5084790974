// RTPS and RTPT. Carries 01 "GTE arithmetic": lm = 0, SZ3 and bit 22 from the 44-bit third sum, the quotient, SX, SY and IR0.

#![tactic(auto)]

// Lines 1 to 4 of a vertex, and all of it.
mod projection;

// Lines 5 to 7 of a vertex: from the depth and two IR to the screen.
pub mod screen;

// The two commands.
pub mod vertices;
