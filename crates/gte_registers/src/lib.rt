// The 64 COP2 registers over lent words. Carries 01 "COP2 registers".

#![tactic(auto)]

// A register as MFC2, CFC2 and SWC2 see it.
pub mod reads;

// All 64 as reads return them, for an image.
pub mod view;

// A register as MTC2, CTC2 and LWC2 write it; the screen queue.
pub mod writes;
