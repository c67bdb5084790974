// The lines that the colour commands share. Carries 01 "GTE arithmetic": "MAC+(FC−MAC)·IR0", colours rounded down.

#![tactic(auto)]

// The end with MAC+(FC-MAC)·IR0.
pub mod cueing;

// The lines that the normal colour commands begin with.
pub mod lights;

// MAC+(FC-MAC)·IR0 itself; MAC, IR and the colour from three sums.
pub mod shade;
