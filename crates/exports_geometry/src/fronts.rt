// The measures of a front: node numbers, each of a point of a list of coordinates.
ghost use Rattle.std.specs.Prelude.{◌≡◌, false, true, MatchOption};
ghost use Rattle.exports_geometry.specs.Measures.{point};
ghost use Rattle.exports_geometry.specs.Fronts.{all_below, distance_or, length_or, nodes_fit, within_or_not};

use geometry::{NodePoints, Point};

// Whether each of a few numbers is below `n`: the first that is not ends the search. It stands beside `many_below`, of the same
// contract: by that alone a point in a front of 4 nodes took 16.7 ns for 13.3, and of 15 nodes 33.8 for 30.7 (docs/MEASURED.md).
fn few_below(numbers: &[u16], n: u16) -> bool
    ensures { result ≡ all_below n numbers.now }
{
    numbers.iter().all(|m| *m < n)
}

// Whether each of many numbers is below `n`, by a loop without branches, which the compiler turns into one of sixteen at a time.
fn many_below(numbers: &[u16], n: u16) -> bool
    ensures { result ≡ all_below n numbers.now }
{
    let mut below = true;
    for m in numbers {
        below &= *m < n;
    }
    below
}

// Whether every node number is that of a point; among more points than a u16 counts each is.
fn nodes_fit(points: &[f64], nodes: &[u16]) -> bool
    ensures { result ≡ nodes_fit points.now nodes.now }
{
    let Ok(n) = u16::try_from(points.len() / 2) else {
        return true;
    };
    if nodes.len() < 16 {
        few_below(nodes, n)
    } else {
        many_below(nodes, n)
    }
}

// The front's ring, where every node number is that of a point.
fn front_of<'a>(points: &'a [f64], nodes: &'a [u16]) -> Option<NodePoints<'a>>
    ensures { MatchOption result (nodes_fit points.now nodes.now ≡ false) (λ front. (nodes_fit points.now nodes.now ≡ true) × (front.pts.now ≡ points.now) × (front.nodes.now ≡ nodes.now)) }
{
    if nodes_fit(points, nodes) {
        return Some(NodePoints { pts: points, nodes });
    }
    None
}

// The length of a front; NaN where a node number is not that of a point.
#[unsafe(no_mangle)]
pub extern "C" fn pave_front_length(points: &[f64], nodes: &[u16]) -> f64
    ensures { result ≡ length_or points.now nodes.now }
{
    let Some(front) = front_of(points, nodes) else {
        return f64::NAN;
    };
    geometry::front_length(&front)
}

// The distance from (x, y) to a front; NaN where a node number is not that of a point.
#[unsafe(no_mangle)]
pub extern "C" fn pave_front_distance(x: f64, y: f64, points: &[f64], nodes: &[u16]) -> f64
    ensures { result ≡ distance_or (point x y) points.now nodes.now }
{
    let Some(front) = front_of(points, nodes) else {
        return f64::NAN;
    };
    geometry::front_distance(Point { x, y }, &front)
}

// Whether (x, y) is within a front; false where a node number is not that of a point.
#[unsafe(no_mangle)]
pub extern "C" fn pave_in_front(x: f64, y: f64, points: &[f64], nodes: &[u16]) -> bool
    ensures { result ≡ within_or_not (point x y) points.now nodes.now }
{
    let Some(front) = front_of(points, nodes) else {
        return false;
    };
    geometry::in_polygon(Point { x, y }, &front)
}
