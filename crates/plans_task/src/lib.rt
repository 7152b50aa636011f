// The plans of the services on tasks, and of slices and the tick, in the order of document 01.
// Each function is a definition of model/specs/Service, for every value, and takes what that takes, one by one: a struct would be made for each; it rests on checks and records.
#![tactic(auto)]

pub mod life;
pub mod ready;
pub mod turns;
pub mod waits;
