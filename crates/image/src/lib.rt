// The 432 bytes of an image. Carries 01 "The machine image", and codes 1 to 4 of "The run and its numbers".

#![tactic(auto)]

// What is read of an image, and the refusals.
pub mod admission;

// The bytes of an image, and the machine that they describe.
pub mod bytes;

// Which words an image may have.
pub mod formed;
