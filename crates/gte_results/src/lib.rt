// What commands write to the 64 words, and the moves of the queues. Carries 01 "GTE arithmetic": "FLAG is cleared as each
// command begins; a triple ORs its three parts".

#![tactic(auto)]

// After AVSZ3 and AVSZ4.
pub mod averages;

// After MVMVA, SQR and OP; MAC1..3 and IR1..3 of every command.
pub mod lines;

// After the colour commands; the colour FIFO.
pub mod shades;

// After RTPS and RTPT; the depth and screen FIFOs.
pub mod vertices;
