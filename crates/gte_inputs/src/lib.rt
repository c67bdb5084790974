// What commands read of the 64 words. Carries 01 "COP2 registers" for commands: signed halves, H unsigned, the three matrices.
// Each place that commands read has a function of its own, where there are several alike over one that takes a number: callers name registers.

#![tactic(auto)]

// RT, LLM and LCM.
pub mod matrices;

// IR0, the depths and their factors.
pub mod scalars;

// The camera, and the points on the screen.
pub mod screen;

// V0..V2, IR1..3, and the vectors of 32 bits.
pub mod vectors;
