// Decimal numbers and fixed words as bytes: read at the start of a part of a file, and put into their places of a buffer.
// Each function is a definition of specs/, for every value; the crate rests on no other.
#![tactic(auto)]

pub mod decimals;
pub mod number;
pub mod words;
