// Theorems about one step: 01 "Figures from the bench", and what every step keeps. specs/ states them, proofs/ proves them, and
// there is no code.

#![tactic(auto)]
