// The sides and corners of a loop's ring, measured. Lengths and margins, which become the spans, are two slices and not one of
// structs: the squares of the lengths are written first, and `take_roots` takes their roots in one loop over the slice.
ghost use Rattle.std.specs.Prelude.{◌≡◌, cond, ℕ, ◌*◌, ◌≤◌, ◌<◌, get_or, length};
ghost use Rattle.std.specs.Float.{nan};
ghost use Rattle.float.specs.Helpers.{decimal};
ghost use Rattle.float.specs.Root.{root};
ghost use Rattle.geometry.specs.F64.{◌⊗◌};
ghost use Rattle.geometry.specs.Measures as measures;
ghost use Rattle.planning.specs.Plan as plans;
ghost use Rattle.planning.specs.Backwards.{read_ring};
ghost use Rattle.planning.specs.Side.{along, square};
ghost use Rattle.planning.specs.Measured.{Measured};

use crate::loop_ring::LoopRing;
use crate::spacing::Spacing;
use geometry::{Point, Ring};

// The vector from `a` to `b`.
fn toward(a: Point, b: Point) -> Point
    ensures { result ≡ measures.toward a b }
{
    Point {
        x: b.x - a.x,
        y: b.y - a.y,
    }
}

// Whether a corner is sharp, by the vectors along the side to it and the side from it.
fn sharp_between(d: Point, e: Point) -> bool
    ensures { result ≡ measures.sharp_turn (measures.cross d e) (measures.dot d e) }
{
    geometry::sharp_turn(d.x * e.y - d.y * e.x, d.x * e.x + d.y * e.y)
}

// What a corner takes from a side that ends there.
fn taken(sharp: bool, spacing: Spacing) -> f64
    ensures { result ≡ cond sharp (spacing.corner_margin ⊗ spacing.h) (decimal 0 0) }
{
    if sharp {
        spacing.corner_margin * spacing.h
    } else {
        0.0
    }
}

// What the corner at place `i` takes.
pub fn margin_at(ring: LoopRing<'_>, spacing: Spacing, i: usize) -> f64
    requires { i < ring.n }
    ensures { result ≡ plans.margin spacing.h spacing.corner_margin (read_ring ring.entry) i }
{
    taken(geometry::sharp_at(&ring, i), spacing)
}

// Writes the squares of the sides' lengths and the corners' margins; a side's vector serves its length and both its corners.
fn square_sides(ring: LoopRing<'_>, spacing: Spacing, squares: &mut [f64], margins: &mut [f64])
    requires { (0 < ring.n) × (ring.n ≤ length squares.old) × (ring.n ≤ length margins.old) }
    ensures { ((i : ℕ) → i < ring.entry.n → get_or squares.new i nan ≡ square (along (read_ring ring.entry) i))
        × ((i : ℕ) → i < ring.entry.n → get_or margins.new i nan ≡ plans.margin spacing.h spacing.corner_margin (read_ring ring.entry) i) }
{
    let mut b = ring.at(0);
    let mut d = toward(ring.at(ring.n - 1), b);
    // by place: after `iter_mut().zip(..)` a proof knows nothing of what was written
    for i in 0..ring.n {
        let c = ring.at(geometry::next_of(ring.n, i));
        let e = toward(b, c);
        margins[i] = taken(sharp_between(d, e), spacing);
        squares[i] = e.x * e.x + e.y * e.y;
        d = e;
        b = c;
    }
}

// The roots of the first `n` numbers, in a loop of their own: one is begun before the last is done.
fn take_roots(s: &mut [f64], n: usize)
    requires { n ≤ length s.old }
    ensures { (i : ℕ) → i < n → get_or s.new i nan ≡ root (get_or s.old i nan) }
{
    for x in s[..n].iter_mut() {
        *x = float::root(*x);
    }
}

// Writes the sides' lengths and the corners' margins.
pub fn measure_sides(ring: LoopRing<'_>, spacing: Spacing, lengths: &mut [f64], margins: &mut [f64])
    requires { (0 < ring.n) × (ring.n ≤ length lengths.old) × (ring.n ≤ length margins.old) }
    ensures { Measured spacing.h spacing.corner_margin (read_ring ring.entry) ring.entry.n lengths.new margins.new }
{
    square_sides(ring, spacing, lengths, margins);
    take_roots(lengths, ring.n);
}
