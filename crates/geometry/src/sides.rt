// Measures of one side, and of two.
ghost use Rattle.std.specs.Prelude.{◌≡◌};
ghost use Rattle.std.specs.Float.Ieee.{lt};
ghost use Rattle.geometry.specs.Measures.{apart, area_term, ray_crosses, segment_distance, segments_cross, side_length, turn};
ghost use Rattle.geometry.specs.Squares.{nearer, segment_square};

use crate::Point;

// The length of the side from `a` to `b`.
pub fn side_length(a: Point, b: Point) -> f64
    ensures { result ≡ side_length a b }
{
    let x = b.x - a.x;
    let y = b.y - a.y;
    float::root(x * x + y * y)
}

// The side's part in twice the area.
pub fn area_term(a: Point, b: Point) -> f64
    ensures { result ≡ area_term a b }
{
    a.x * b.y - b.x * a.y
}

// Whether the ray from `p` to the right crosses the side, from the tests whether `p` is below its ends.
pub fn crosses_between(p: Point, a: Point, b: Point, below_a: bool, below_b: bool) -> bool
    requires { (below_a ≡ lt p.y a.y) × (below_b ≡ lt p.y b.y) }
    ensures { result ≡ ray_crosses p a b }
{
    if below_a == below_b {
        return false;
    }
    let t = (p.y - a.y) / (b.y - a.y);
    p.x < a.x + t * (b.x - a.x)
}

// Whether the ray from `p` to the right crosses the side. The side is half open, so a vertex on the ray counts once.
pub fn ray_crosses(p: Point, a: Point, b: Point) -> bool
    ensures { result ≡ ray_crosses p a b }
{
    let below_a = p.y < a.y;
    let below_b = p.y < b.y;
    crosses_between(p, a, b, below_a, below_b)
}

// The square of the distance from `p` to the side; one whose squared length is at most `short` counts as the point `a`.
pub fn segment_square(short: f64, p: Point, a: Point, b: Point) -> f64
    ensures { result ≡ segment_square short p a b }
{
    let abx = b.x - a.x;
    let aby = b.y - a.y;
    let apx = p.x - a.x;
    let apy = p.y - a.y;
    let length2 = abx * abx + aby * aby;
    if length2 <= short {
        return apx * apx + apy * apy;
    }
    let t = float::clamp_unit((apx * abx + apy * aby) / length2);
    let qpx = p.x - (a.x + t * abx);
    let qpy = p.y - (a.y + t * aby);
    qpx * qpx + qpy * qpy
}

// The distance from `p` to the side.
pub fn segment_distance(short: f64, p: Point, a: Point, b: Point) -> f64
    ensures { result ≡ segment_distance short p a b }
{
    float::root(segment_square(short, p, a, b))
}

// `d` where it is less than `best`.
pub fn nearer_of(d: f64, best: f64) -> f64
    ensures { result ≡ nearer d best }
{
    if d < best { d } else { best }
}

// Twice the signed area of the triangle `a b c`.
fn turn_of(a: Point, b: Point, c: Point) -> f64
    ensures { result ≡ turn a b c }
{
    (b.x - a.x) * (c.y - a.y) - (b.y - a.y) * (c.x - a.x)
}

// Whether one of the two is above 1e-12 and the other below -1e-12.
fn far_apart(d: f64, e: f64) -> bool
    ensures { result ≡ apart d e }
{
    (d > 1e-12) & (e < -1e-12) | (d < -1e-12) & (e > 1e-12)
}

// Whether the open sides `a b` and `c d` cross. Sides that touch, or lie in one line, do not.
pub fn segments_cross(a: Point, b: Point, c: Point, d: Point) -> bool
    ensures { result ≡ segments_cross a b c d }
{
    if far_apart(turn_of(a, b, c), turn_of(a, b, d)) {
        return far_apart(turn_of(c, d, a), turn_of(c, d, b));
    }
    false
}
