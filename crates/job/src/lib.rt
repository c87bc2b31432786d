// The job: sampling, passes of rows, closings.
#![tactic(auto)]

mod call;
mod paved;

pub use call::job;
