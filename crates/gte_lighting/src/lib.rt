// The colour commands that start from a normal. Carries 001's formulas of NCS, NCT, NCCS, NCCT, NCDS and NCDT.

#![tactic(auto)]

// NCCS and NCCT.
pub mod normal_colours;

// NCDS and NCDT.
pub mod normal_cueing;

// NCS and NCT.
pub mod normals;
