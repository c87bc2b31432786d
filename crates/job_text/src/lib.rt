// The text of a job, read into coordinates and loop lengths.
#![tactic(auto)]

mod jobs;
mod lines;
mod loops;
mod text_job;

pub use jobs::{JobRead, TextError, read_job};
pub use text_job::TextJob;
