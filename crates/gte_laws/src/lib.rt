// Theorems about the commands: demand 2 for FLAG, demand 3 for one command. specs/ states them, proofs/ proves them, and there
// is no code.

#![tactic(auto)]
