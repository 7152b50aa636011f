// The table of services in code: a service by its name, what it takes in its fields, and the call that its number and its fields make.
// Each function is a definition of specs/ over the table of model/specs/Services, for every value; the crate rests on text and model.
#![tactic(auto)]

pub mod calls;
pub mod names;
pub mod takes;
