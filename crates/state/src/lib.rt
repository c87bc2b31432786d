// The state of a paving as a caller holds it: four lent buffers, and the counts by value. Number 25, zeros behind the counts, and
// writing points, quads and front numbers into the buffers. The calls of the crates above stand on it.
#![tactic(auto)]

mod appending;
mod arrays;
mod buffers;
mod coordinates;
mod fronts;
mod given;
mod held;
mod lent;
mod limits;
mod refusal;

pub use appending::{narrow, put_all, put_numbers, put_quad};
pub use arrays::Arrays;
pub use buffers::fill_from;
pub use coordinates::{outside, wrong_coordinate};
pub use fronts::{Fronts, front_at, nodes_of, sum_of};
pub use held::{Buffers, fit_nodes};
pub use lent::Lent;
pub use limits::is_full;
pub use refusal::{Refusal, numbered};

// The eight counts of document 01; by default none.
#[derive(Clone, Copy, Default)]
pub struct Counts {
    pub points: usize,
    pub quads: usize,
    pub fronts: usize,
    pub row_quads: usize,
    pub core_quads: usize,
    pub row_rounds: usize,
    pub passes_begun: usize,
    pub laid: usize,
}

// A front's place among the nodes of all fronts: where it starts, and how many nodes it has.
#[derive(Clone, Copy)]
pub struct Front {
    pub start: usize,
    pub len: usize,
}
