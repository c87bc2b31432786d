// The second half of the Rust's `sample_loop`: a planned loop's nodes placed, and with them one loop sampled, the numbers 7 and 10 of document 01.
#![tactic(auto)]

mod one_loop;
mod place;

pub use one_loop::sample_loop;
