// A fan tried: the search for its centre and the corner test of its quads (the Rust's `fan_fill` up to what it writes). Nothing lent is
// written here.
#![tactic(auto)]

ghost use Rattle.fan_search.specs.Squares.{Squared};

mod boxes;
mod grid;
mod quads;
mod squares;
mod trial;

use geometry::Point;
pub use grid::box_of;
pub use quads::Fan;
pub use trial::try_fan;

// The box of a front's points.
#[derive(Clone, Copy)]
pub struct Box {
    pub left: f64,
    pub low: f64,
    pub right: f64,
    pub high: f64,
}

// The best point of the grid so far, its distance to the front and the square of that, and the side that a point was last found too
// near to.
#[derive(Clone, Copy)]
pub struct Centre {
    pub point: Point,
    pub clearance: f64,
    pub square: f64,
    pub near: usize,
    ghost squared: { Squared clearance square },
}

// The points of a quad's three front nodes, in turn.
#[derive(Clone, Copy)]
pub struct Three {
    pub a: Point,
    pub b: Point,
    pub c: Point,
}
