// Whether the sides of a loop cross (the Rust's `loop_is_simple`).
#![tactic(auto)]

mod simple;

pub use simple::is_simple;
