// The rows of causes: what is listed of one check, and of the checks that stand together. Carries 02, Ticket 5. Every method lists its own
// rows behind those that stand there, and counts the words that all need, whether they are there or not.

#![tactic(auto)]

// The checks of each kind of value.
pub mod checks;

// The rows, and how one is listed.
pub mod rows;
