// The tests of single parts of a state: one record and its charge, a semaphore's count, place 0, one event flag, one data
// queue, and a wait on either.
// Each function is a definition of model/specs/Test or Task, or a line of one, for every value, and takes the numbers that this takes; it rests on model and records.
#![tactic(auto)]

pub mod flag;
pub mod queue;
pub mod record;
