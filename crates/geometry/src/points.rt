// A point of a list of coordinates, and the places of a ring.
ghost use Rattle.std.specs.Prelude.{◌≡◌, ℕ, ◌*◌, ◌+◌, ◌<◌, get_or, length, set};
ghost use Rattle.geometry.specs.Rings.{next, point_at, prev};

use crate::Point;

// The `i`th point of a list of coordinates.
pub fn point_at(pts: &[f64], i: usize) -> Point
    requires { i * 2 + 1 < length pts.now }
    ensures { result ≡ point_at pts.now i }
{
    Point {
        x: pts[i * 2],
        y: pts[i * 2 + 1],
    }
}

// Writes (x, y) as the `i`th point of a list of coordinates.
pub fn put_point(pts: &mut [f64], i: usize, x: f64, y: f64)
    requires { i * 2 + 1 < length pts.old }
    ensures { pts.new ≡ set (set pts.old (i * 2) x) (i * 2 + 1) y }
{
    pts[i * 2] = x;
    pts[i * 2 + 1] = y;
}

// The point that the `i`th of some node numbers names.
pub fn node_point(pts: &[f64], nodes: &[u16], i: usize) -> Point
    requires { (i < length nodes.now) × (get_or nodes.now i 0 * 2 + 1 < length pts.now) }
    ensures { result ≡ point_at pts.now (get_or nodes.now i 0) }
{
    let node = usize::from(nodes[i]);
    point_at(pts, node)
}

// The place after `i` in a ring of `n` places.
pub fn next_of(n: usize, i: usize) -> usize
    requires { i < n }
    ensures value { result ≡ next n i }
    ensures upper_bound { result < n }
{
    let j = i + 1;
    if j == n { 0 } else { j }
}

// The place before `i` in a ring of `n` places.
pub fn prev_of(n: usize, i: usize) -> usize
    requires { i < n }
    ensures value { result ≡ prev n i }
    ensures upper_bound { result < n }
{
    if i == 0 { n - 1 } else { i - 1 }
}
