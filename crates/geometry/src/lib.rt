// Points, sides, rings and quads, and the plate's outline: what the Rust's two_d.rs and the small functions of
// alt_paving.rs compute. Each contract equates the result with the definition in specs/, whose f64 operations stand in the
// Rust's order.
#![tactic(auto)]

mod corners;
mod outline;
mod points;
mod rings;
mod sides;

pub use corners::{
    corner_passes, corners_pass, corners_pass_with, least_corner, quad_area, sharp_turn,
};
pub use outline::Outline;
pub use points::{next_of, node_point, point_at, prev_of, put_point};
pub use rings::{
    FirstPoints, NodePoints, Ring, front_distance, front_length, in_polygon, least_square,
    sharp_at, signed_area,
};
pub use sides::{ray_crosses, segment_distance, segment_square, segments_cross, side_length};

#[derive(Clone, Copy)]
pub struct Point {
    pub x: f64,
    pub y: f64,
}
