// Whether a new loop is simple.
ghost use Rattle.std.specs.Prelude.{◌≡◌, not, ◌&&◌, ◌+◌, ◌-◌, ◌<◌, ◌≤◌, eqb};
ghost use Rattle.geometry.specs.Measures.{segments_cross};
ghost use Rattle.rules.specs.Simple.{is_simple, search, sides_cross};
ghost use Rattle.crossing.specs.Right.{right_of};

use geometry::{Point, Ring};

// Whether `p` is right of the side `a b`.
fn right_of(a: Point, b: Point, p: Point) -> bool
    ensures { result ≡ right_of a b p }
{
    (b.x - a.x) * (p.y - a.y) - (b.y - a.y) * (p.x - a.x) < -1e-12
}

// Whether the sides `a b` and `c d` cross, from the tests whether `c` and `d` are right of `a b`: they do not where both are, or none.
fn cross_between(a: Point, b: Point, c: Point, d: Point, right_c: bool, right_d: bool) -> bool
    requires { (right_c ≡ right_of a b c) × (right_d ≡ right_of a b d) }
    ensures { result ≡ segments_cross a b c d }
{
    right_c != right_d && geometry::segments_cross(a, b, c, d)
}

// Whether side `i` crosses the closing side, which is the first side's neighbour.
fn crosses_closing<R: Ring>(ring: &R, i: usize) -> bool
    requires { i + 1 < (R.ring ring.now).size }
    ensures { result ≡ (not (eqb i 0) && sides_cross (R.ring ring.now) i ((R.ring ring.now).size - 1)) }
{
    if i == 0 {
        return false;
    }
    let n = ring.size();
    let a = ring.at(i);
    let b = ring.at(i + 1);
    let c = ring.at(n - 1);
    let d = ring.at(0);
    geometry::segments_cross(a, b, c, d)
}

// Whether two sides of a ring cross. A pair is met once, and neighbours are not met. Both loops end at the first crossing, by a label
// as document 01 has it. The test of a side's end is kept for the next side, and a side that is not met by the line of side `i` costs
// that test alone.
fn sides_cross<R: Ring>(ring: &R) -> bool
    requires { 3 ≤ (R.ring ring.now).size }
    ensures { result ≡ (search (R.ring ring.now) (R.ring ring.now).size).crossed }
{
    let n = ring.size();
    let mut crossed = false;
    let last = n - 1;
    'sides: for i in 0..n - 2 {
        let a = ring.at(i);
        let b = ring.at(i + 1);
        let mut right = right_of(a, b, ring.at(i + 2));
        for j in i + 2..last {
            let c = ring.at(j);
            let d = ring.at(j + 1);
            let right_d = right_of(a, b, d);
            if cross_between(a, b, c, d, right, right_d) {
                crossed = true;
                break 'sides;
            }
            right = right_d;
        }
        if crosses_closing(ring, i) {
            crossed = true;
            break 'sides;
        }
    }
    crossed
}

// Whether a ring is simple.
pub fn is_simple<R: Ring>(ring: &R) -> bool
    ensures { result ≡ is_simple (R.ring ring.now) }
{
    let n = ring.size();
    3 <= n && !sides_cross(ring)
}
