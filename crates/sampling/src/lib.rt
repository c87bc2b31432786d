// From a job to its sampled loops: the call `sample`, with the numbers 1 to 7 and 10 of document 01 (`sample` of the Rust's alt_paving.rs).
#![tactic(auto)]

mod all_loops;
mod call;

pub use call::{put_loops, sample, sample_accepted};
