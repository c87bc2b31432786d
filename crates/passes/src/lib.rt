// The passes of a job: each puts the fronts in order of their lengths and tries one row on each.
#![tactic(auto)]

mod order;
mod pass;
mod run;

pub use pass::one_pass;
pub use run::some_passes;
