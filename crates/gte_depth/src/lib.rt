// NCLIP, AVSZ3 and AVSZ4. Carries 01 "GTE arithmetic": MAC0 with bits 16 and 15, OTZ.

#![tactic(auto)]

// The three commands.
pub mod averages;

// Their exact values.
pub mod values;
