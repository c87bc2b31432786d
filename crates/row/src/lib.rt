// One row laid inward from a front of a lent state: the Rust's `next_row` with `commit_row`, and the row call.
#![tactic(auto)]

mod call;
mod step;

pub use call::{next_row, row};
