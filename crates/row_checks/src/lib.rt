// The checks of a row: the projections of a front's nodes and the eight checks on them (the Rust's `project`, and `next_row` up
// to its answer). Nothing lent is written here.
#![tactic(auto)]

mod checks;
mod far;
mod fronts;
mod projecting;
mod quads;
mod trial;

pub use trial::try_row;
