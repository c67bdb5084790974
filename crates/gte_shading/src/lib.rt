// The colour commands that start from a colour or IR. Carries 001's formulas of DCPL, INTPL, DPCS, DPCT, CC, CDP, GPF and GPL.

#![tactic(auto)]

// CC and CDP.
pub mod colours;

// DCPL, INTPL, DPCS and DPCT.
pub mod depth_cueing;

// GPF and GPL.
pub mod interpolation;
