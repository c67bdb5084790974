// Theorems about the causes of FLAG's bits: specs/ states them, proofs/ proves them, and there is no code. Carries 02, Ticket 5: each row
// is a true cause, and no cause is left off.

#![tactic(auto)]
