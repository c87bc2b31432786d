// The fan of the one front that is left: the Rust's `fan_fill`, and the fan call.
#![tactic(auto)]

mod call;
mod laying;
mod quads;
mod step;

pub use call::fan;
pub use step::fan_fill;
