// The squares of the distances from a point to the sides of a front. A point that is no farther from one side than the best so far is
// from its nearest cannot win, so its other sides are not looked at.
ghost use Rattle.std.specs.Prelude.{◌≡◌, ◌<◌};
ghost use Rattle.fan_search.specs.Squares.{Seen, side_square};

use geometry::{Point, Ring};

// The square of the distance from `p` to the side at place `i`.
#[tactic(auto, using(geometry::proofs::Literals::short_is))]
pub fn side_square<R: Ring>(p: Point, front: &R, i: usize) -> f64
    requires { i < (R.ring front.now).size }
    ensures { result ≡ side_square p (R.ring front.now) i }
{
    let j = geometry::next_of(front.size(), i);
    let a = front.at(i);
    let b = front.at(j);
    geometry::segment_square(1e-18, p, a, b)
}

// The least of the squares, or the first side whose square is at most `bound`.
pub fn look_at<R: Ring>(p: Point, front: &R, bound: f64) -> Result<f64, usize>
    ensures { Seen p (R.ring front.now) bound result }
{
    let mut least = f64::INFINITY;
    for i in 0..front.size() {
        let square = side_square(p, front, i);
        if square <= bound {
            return Err(i);
        }
        if square < least {
            least = square;
        }
    }
    Ok(least)
}
