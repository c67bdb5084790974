// The causes of each of the 22 commands: its lines once more, with the values that the command itself computes. Carries 02, Ticket 5.
// A function lists the causes of one part; of which bit and which part, the rows tell.

#![tactic(auto)]

// Every command, by the low six bits of its word.
pub mod commands;

// NCLIP, AVSZ3 and AVSZ4.
mod depth;

// NCS, NCCS and NCDS, and their triples.
mod lighting;

// Lines that commands share.
mod lines;

// MVMVA, SQR and OP.
mod matrix;

// RTPS and RTPT.
mod perspective;

// CC, CDP, DCPL, INTPL, DPCS, DPCT, GPF and GPL.
mod shading;
