// The first half of the Rust's `sample_loop`: a loop's ring, of the points kept, and its plan, how many inner points each side gets.
#![tactic(auto)]

mod keep;
mod loop_ring;
mod plan;
mod ring;
mod sides;
mod spacing;

pub use keep::{all_apart, keep_points};
pub use loop_ring::LoopRing;
pub use plan::{Plan, inner_of, plan_sides};
pub use ring::kept_ring;
pub use sides::margin_at;
pub use spacing::Spacing;
