// Fronts of four and six nodes closed by one quad or two: the Rust's `close_small_fronts` on a lent state, and the closing call.
#![tactic(auto)]

mod call;
mod keeping;
mod laying;
mod step;

pub use call::close;
pub use step::close_small_fronts;
