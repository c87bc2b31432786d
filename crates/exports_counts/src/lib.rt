// What the calls on jobs and states share for C and Rust callers: the options one by one, and the counts as an array of eight.
#![tactic(auto)]

mod counts;
mod options;

pub use counts::{counts_of, no_counts, put_answer};
pub use options::options_of;
