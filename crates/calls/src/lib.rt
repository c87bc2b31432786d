// A state of a job and calls on it, each named by a letter; what they come to is printed.
#![tactic(auto)]

mod making;
mod starting;

pub use making::run;
