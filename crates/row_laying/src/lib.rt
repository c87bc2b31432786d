// A row that stands, written into a lent state: the Rust's `commit_row`.
#![tactic(auto)]

mod commit;
mod laying;

pub use laying::{lay_row, lay_row_in};
