// The file of a saved machine: specs/ says what it is and what it means, proofs/ has its laws, and there is no code. Carries 02, Ticket 3.

#![tactic(auto)]
