// What instructions do inside the processor: to the control state, and to the 32 registers that the caller lends. Carries 01
// "One step": PC and next PC, the load delay, links, exceptions.

#![tactic(auto)]

// The load that waits.
pub mod delay;

// PC and next PC.
mod flow;

// Jumps and branches, with and without a link.
pub mod jumps;

// Everything else that stays inside the processor.
pub mod results;

// Exceptions, over control state and registers.
pub mod traps;
