// MVMVA, SQR and OP: one line of MAC1..3 and IR1..3. Carries 01 "GTE arithmetic": "MVMVA with FC", matrix 3.

#![tactic(auto)]

// A matrix times a vector plus a translation, each chosen by the command word.
pub mod mvmva;

// The squares of IR, and its outer product with the diagonal of RT.
pub mod sqr_op;
