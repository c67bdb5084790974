// The laws of the integers, for every other crate's proofs: specs/ has them, and there is no code. Carries 01's "Division by
// powers of two rounds down".

#![tactic(auto)]
