// Theorems about saved machines, on the definitions of the two calls: specs/ states them, proofs/ proves them, and there is no code.
// Carries 02, Ticket 3: writing then reading gives back the same machine, and equal meaning is equal bytes.

#![tactic(auto)]
