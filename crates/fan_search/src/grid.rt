// The fan's centre: the point of a 13 by 13 grid over the front's box that is farthest from the front.
ghost use Rattle.std.specs.Prelude.{◌≡◌};
ghost use Rattle.geometry.specs.Domain.{rings};
ghost use Rattle.rules.specs.Fan as fans;
ghost use Rattle.fan_search.specs.Values.{boxed, centred};

use crate::squares::{look_at, side_square};
use crate::{Box, Centre};
use geometry::{Outline, Point, Ring};

// The box of a ring's points.
#[tactic(auto, using(crate::proofs::Searching::box_first))]
pub fn box_of<R: Ring>(ring: &R) -> Box
    ensures { boxed result ≡ fans.box (R.ring ring.now) (R.ring ring.now).size }
{
    let n = ring.size();
    let mut b = Box::empty();
    // by place: a `Ring` has no iterator, which would be one more type with its laws for this walk
    for i in 0..n {
        b = b.with(ring.at(i));
    }
    b
}

// The `k`th of 13 even steps from `a` to `b`.
#[tactic(auto, using(crate::proofs::Literals::twelve_is))]
fn grid_step(a: f64, b: f64, k: u32) -> f64
    ensures { result ≡ fans.grid_step a b k }
{
    a + (b - a) * f64::from(k) / 12.0
}

// The grid's point in column `i` and row `j`.
fn grid_point(b: Box, i: u32, j: u32) -> Point
    ensures { result ≡ fans.grid_point (boxed b) i j }
{
    Point {
        x: grid_step(b.left, b.right, i),
        y: grid_step(b.low, b.high, j),
    }
}

// `p` where it is in the domain, within the front and farther from it than `best`; otherwise `best`. The side that the point before
// was too near to comes first, and the domain, in which a front lies, last.
fn try_point<R: Ring>(outline: &Outline, front: &R, p: Point, best: Centre) -> Centre
    ensures { (b : fans.Box) → centred result ≡ fans.try_point (rings outline.now.coords.now outline.now.loop_lengths.now) (R.ring front.now) b p (centred best) }
{
    if best.near < front.size() && side_square(p, front, best.near) <= best.square {
        return best;
    }
    if !geometry::in_polygon(p, front) {
        return best;
    }
    let square = match look_at(p, front, best.square) {
        Err(near) => {
            let mut kept = best;
            kept.near = near;
            return kept;
        }
        Ok(square) => square,
    };
    let clearance = float::root(square);
    if best.clearance < clearance && outline.contains(p) {
        return Centre {
            point: p,
            clearance,
            square,
            near: best.near,
        };
    }
    best
}

// The best of `best` and the grid's column `i`, from low to high.
fn search_column<R: Ring>(outline: &Outline, front: &R, b: Box, i: u32, best: Centre) -> Centre
    ensures { centred result ≡ fans.search_column (rings outline.now.coords.now outline.now.loop_lengths.now) (R.ring front.now) (boxed b) i 13 (centred best) }
{
    let mut found = best;
    for j in 0..13 {
        let p = grid_point(b, i, j);
        found = try_point(outline, front, p, found);
    }
    found
}

// Where the search starts: the middle of the box, with no clearance.
#[tactic(auto, using(placing::proofs::Literals::half_is, crate::proofs::Literals::minus_inf_is))]
fn middle_of(b: Box) -> Centre
    ensures { centred result ≡ fans.start (boxed b) }
{
    let point = Point {
        x: 0.5 * (b.left + b.right),
        y: 0.5 * (b.low + b.high),
    };
    Centre {
        point,
        clearance: f64::NEG_INFINITY,
        square: f64::NEG_INFINITY,
        near: 0,
    }
}

// The best point of the grid, column by column from the left.
fn search_grid<R: Ring>(outline: &Outline, front: &R, b: Box) -> Centre
    ensures { centred result ≡ fans.search_grid (rings outline.now.coords.now outline.now.loop_lengths.now) (R.ring front.now) (boxed b) 13 (fans.start (boxed b)) }
{
    let mut found = middle_of(b);
    for i in 0..13 {
        found = search_column(outline, front, b, i, found);
    }
    found
}

// The fan's centre and its clearance.
#[tactic(auto, unfolding(rules::specs::Fan::centre))]
pub fn centre_of<R: Ring>(outline: &Outline, front: &R) -> Centre
    ensures { centred result ≡ fans.centre (rings outline.now.coords.now outline.now.loop_lengths.now) (R.ring front.now) }
{
    search_grid(outline, front, box_of(front))
}
