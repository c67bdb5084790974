// RAM and the scratch pad behind virtual addresses. Carries 01 "Addresses", the loads and stores of "One step", and 02's Ticket 1.

#![tactic(auto)]

// Virtual and physical addresses, segments, alignment, RAM's length.
pub mod addresses;

// What a load or a fetch makes of memory, after the tests of its address.
pub mod loads;

// What a store leaves in memory, after the tests of its address.
pub mod stores;
