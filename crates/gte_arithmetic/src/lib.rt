// Checked values of the GTE. Carries 01 "GTE arithmetic": every limit with its FLAG bit, and how MAC1..3 and MAC0 are stored.

#![tactic(auto)]

// One function for each kind of limit.
pub mod limits;

// MAC1..3 and MAC0: an exact value is tested, wrapped, shifted and stored.
pub mod mac;

// What commands compute with and leave. Types alone.
pub mod values;
