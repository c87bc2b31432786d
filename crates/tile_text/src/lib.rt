// The text of a tile list, as the solver desk edits it: sampled loops, then what `pave` prints. Reading it into lent buffers.
#![tactic(auto)]

mod counts;
mod list;
mod numbers;
mod points;
mod rings;

pub use list::{ListBuffers, ListRead, read_list};
