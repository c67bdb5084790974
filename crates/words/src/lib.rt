// Words of 32 bits and the signed numbers that they stand for. Carries 01's "SRA and the signed product keep the sign",
// "Division by powers of two rounds down" and the extensions of "COP2 registers".

#![tactic(auto)]

// Arithmetic shifts, and the low word of a wide number.
pub mod shifts;

// Bits read as signed numbers and back; sign and zero extension.
pub mod signed;
