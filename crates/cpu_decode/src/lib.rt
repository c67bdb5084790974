// What an instruction word says. Carries 01 "One step": the 68 instructions, whose each word is, and its fields.

#![tactic(auto)]

// The register numbers, immediates and targets in a word.
pub mod fields;

// Which of the 68 instructions a word is.
pub mod operations;

// Whose a word is: the processor's or a coprocessor's.
pub mod owners;
