// Theorems about runs: demands 1 and 3, and the laws of 01 "The run and its numbers". specs/ states them, proofs/ proves them,
// and there is no code.

#![tactic(auto)]
