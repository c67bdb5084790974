// The machine's state: specs/State.antt has the whole record, and the code here the part that goes by value. Carries 01 "One
// step": Cop0, its moves, and what an exception leaves.

#![tactic(auto)]

// PC, the load that waits, Cop0, HI and LO; MFC0, MTC0, RFE.
pub mod control;

// What an exception leaves in the control state.
pub mod exceptions;
