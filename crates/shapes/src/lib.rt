// Places, and the shapes of a plate at them, as SVG: outline, tiles, fronts and nodes, put into a lent buffer.
#![tactic(auto)]

mod fronts;
mod least;
mod places;
mod rings;
mod tiles;

pub use fronts::{put_fronts, put_nodes, put_outline};
pub use least::worst;
pub use places::{put_across, put_up};
pub use tiles::put_tiles;
