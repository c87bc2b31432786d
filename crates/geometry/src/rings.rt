// Closed rings and their measures: the first `n` points of a list, and the points that a front's node numbers name.
ghost use Rattle.std.specs.Prelude.{◌≡◌, ℕ, ◌*◌, ◌+◌, ◌<◌, ◌≤◌, ◌/◌, drop, false, get_or, length};
ghost use Rattle.std.specs.Float.{inf};
ghost use Rattle.geometry.specs.Rings as specs;
ghost use Rattle.geometry.specs.Rings.{node_ring, ring_of};
ghost use Rattle.geometry.specs.Measures.{front_length, in_polygon, ring_distance, sharp_at, signed_area};
ghost use Rattle.geometry.specs.Squares as squares;

use crate::Point;
use crate::corners::sharp_turn;
use crate::points::{next_of, node_point, point_at, prev_of};
use crate::sides::{
    area_term, crosses_between, nearer_of, ray_crosses, segment_square, side_length,
};

// A closed ring, wherever its points come from.
pub trait Ring {
    ghost ring: { Self → specs.Ring };

    fn size(&self) -> usize
        ensures { result ≡ (ring self.now).size };

    fn at(&self, i: usize) -> Point
        requires { i < (ring self.now).size }
        ensures { result ≡ (ring self.now).at i };
}

// The ring of the first `n` points of a list.
#[derive(Clone, Copy)]
pub struct FirstPoints<'a> {
    pub pts: &'a [f64],
    pub n: usize,
    ghost fits: { n * 2 ≤ length pts.now },
}

impl<'a> Ring for FirstPoints<'a> {
    ghost ring = { λ s. ring_of s.pts.now s.n };

    fn size(&self) -> usize {
        self.n
    }

    fn at(&self, i: usize) -> Point {
        point_at(self.pts, i)
    }
}

impl<'a> FirstPoints<'a> {
    // All points of a list.
    pub fn all(pts: &'a [f64]) -> FirstPoints<'a>
        ensures points { result.pts.now ≡ pts.now }
        ensures count { result.n ≡ length pts.now / 2 }
    {
        FirstPoints {
            pts,
            n: pts.len() / 2,
        }
    }

    // The coordinates behind the ring.
    pub fn rest(&self) -> &'a [f64]
        ensures { result.now ≡ drop (self.now.n * 2) self.now.pts.now }
    {
        let at = self.n * 2;
        &self.pts[at..]
    }
}

// The ring of the points that a front's node numbers name.
#[derive(Clone, Copy)]
pub struct NodePoints<'a> {
    pub pts: &'a [f64],
    pub nodes: &'a [u16],
    ghost named: { (i : ℕ) → i < length nodes.now → get_or nodes.now i 0 * 2 + 1 < length pts.now },
}

impl<'a> Ring for NodePoints<'a> {
    ghost ring = { λ s. node_ring s.pts.now s.nodes.now };

    fn size(&self) -> usize {
        self.nodes.len()
    }

    fn at(&self, i: usize) -> Point {
        node_point(self.pts, self.nodes, i)
    }
}

// Whether `p` is within a ring: the closing side first, then side by side. The test of an end is kept for the next side, and a
// side whose ends are both above or both below is passed by.
pub fn in_polygon<R: Ring>(p: Point, ring: &R) -> bool
    ensures { result ≡ in_polygon p (R.ring ring.now) }
{
    let n = ring.size();
    if n == 0 {
        return false;
    }
    let last = n - 1;
    let end = ring.at(last);
    let first = ring.at(0);
    let mut inside = ray_crosses(p, end, first);
    let mut below = p.y < first.y;
    for i in 0..last {
        let b = ring.at(i + 1);
        let below_b = p.y < b.y;
        if below != below_b {
            let a = ring.at(i);
            inside = inside != crosses_between(p, a, b, below, below_b);
            below = below_b;
        }
    }
    inside
}

// `best`, or the least square of the distances from `p` to the sides of a ring.
pub fn least_square<R: Ring>(short: f64, p: Point, best: f64, ring: &R) -> f64
    ensures { result ≡ squares.least_square short p best (R.ring ring.now) (R.ring ring.now).size }
{
    let n = ring.size();
    let mut least = best;
    for i in 0..n {
        let a = ring.at(i);
        let b = ring.at(next_of(n, i));
        least = nearer_of(segment_square(short, p, a, b), least);
    }
    least
}

// The signed area of a ring: three sides a turn, then those left, and the closing side.
pub fn signed_area<R: Ring>(ring: &R) -> f64
    ensures { result ≡ signed_area (R.ring ring.now) }
{
    let n = ring.size();
    if n == 0 {
        return 0.0;
    }
    let first = ring.at(0);
    let mut sum = 0.0;
    let mut a = first;
    let mut i = 1usize;
    // at 4 points one side a turn takes a fifth longer, counted turns a quarter, and no way out between the loops a tenth
    while 2 < n - i {
        let b = ring.at(i);
        let c = ring.at(i + 1);
        let d = ring.at(i + 2);
        sum = sum + area_term(a, b) + area_term(b, c) + area_term(c, d);
        a = d;
        i += 3;
    }
    if i == n {
        return (sum + area_term(a, first)) / 2.0;
    }
    // by place: a `Ring` has no iterator, which would be one more type with its laws
    for j in i..n {
        let b = ring.at(j);
        sum = sum + area_term(a, b);
        a = b;
    }
    (sum + area_term(a, first)) / 2.0
}

// Whether the corner at place `i` of a ring is sharp.
pub fn sharp_at<R: Ring>(ring: &R, i: usize) -> bool
    requires { i < (R.ring ring.now).size }
    ensures { result ≡ sharp_at (R.ring ring.now) i }
{
    let n = ring.size();
    let h = prev_of(n, i);
    let j = next_of(n, i);
    let a = ring.at(h);
    let b = ring.at(i);
    let c = ring.at(j);
    let inx = b.x - a.x;
    let iny = b.y - a.y;
    let outx = c.x - b.x;
    let outy = c.y - b.y;
    sharp_turn(inx * outy - iny * outx, inx * outx + iny * outy)
}

// The length of a ring's sides.
pub fn front_length<R: Ring>(ring: &R) -> f64
    ensures { result ≡ front_length (R.ring ring.now) }
{
    let n = ring.size();
    let mut sum = 0.0;
    for i in 0..n {
        let a = ring.at(i);
        let b = ring.at(next_of(n, i));
        sum = sum + side_length(a, b);
    }
    sum
}

// The distance from `p` to a ring: the root of the least square.
pub fn front_distance<R: Ring>(p: Point, ring: &R) -> f64
    ensures { result ≡ ring_distance (inf false) p (R.ring ring.now) (R.ring ring.now).size }
{
    float::root(least_square(1e-18, p, 1.0 / 0.0, ring))
}
