// What closes the fronts of four and six nodes: their quads, turned and tested (the Rust's `best_six_closure`, and `close_small_fronts`
// up to what it writes). Nothing of the state is written here.
#![tactic(auto)]

mod finding;
mod front;
mod quads;

pub use finding::find_closures;
pub use front::Closure;
pub use quads::Quad;
