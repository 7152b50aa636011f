// One line of a list of calls, read where it begins: its context, its service, its numbers and its line end.
// Each function is a definition of specs/, for every value; the crate rests on services and text.
#![tactic(auto)]

pub mod fields;
pub mod line;
