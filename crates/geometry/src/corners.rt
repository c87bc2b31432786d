// Corners of a ring and of a quad: document 01's readings of the Rust's angles. A quad's points come one by one: closing_search
// has a struct of them, in a crate above; each other caller would make one for the call.
ghost use Rattle.std.specs.Prelude.{◌≡◌};
ghost use Rattle.geometry.specs.Measures.{corner_passes, corner_value, corners_pass, least_corner, quad_area, sharp_turn, side_length};

use crate::Point;
use crate::sides::{area_term, side_length};

// Whether a turn is above 30 degrees, by the cross and the dot product of its two sides.
pub fn sharp_turn(cross: f64, dot: f64) -> bool
    ensures { result ≡ sharp_turn cross dot }
{
    if dot < 0.0 {
        return true;
    }
    dot * dot < 3.0 * cross * cross
}

// The value of a quad's corner, from the lengths of its sides: `back` to the node before, `forth` to the node after.
fn corner_value(before: Point, here: Point, after: Point, back: f64, forth: f64) -> f64
    requires { (back ≡ side_length here before) × (forth ≡ side_length here after) }
    ensures { result ≡ corner_value before here after }
{
    let ax = after.x - here.x;
    let ay = after.y - here.y;
    let bx = before.x - here.x;
    let by = before.y - here.y;
    (ax * by - ay * bx) / (forth * back)
}

// Whether a quad's corner has a finite value above the limit.
pub fn corner_passes(
    before: Point,
    here: Point,
    after: Point,
    back: f64,
    forth: f64,
    limit: f64,
) -> bool
    requires { (back ≡ side_length here before) × (forth ≡ side_length here after) }
    ensures { result ≡ corner_passes limit (corner_value before here after) }
{
    let v = corner_value(before, here, after, back, forth);
    if float::is_finite(v) {
        return v > limit;
    }
    false
}

// The corner test of the quad `a b c d` whose sides have these lengths.
pub fn corners_pass_with(
    a: Point,
    b: Point,
    c: Point,
    d: Point,
    ab: f64,
    bc: f64,
    cd: f64,
    da: f64,
    limit: f64,
) -> bool
    requires { (ab ≡ side_length a b) × (bc ≡ side_length b c) × (cd ≡ side_length c d) × (da ≡ side_length d a) }
    ensures { result ≡ corners_pass limit a b c d }
{
    if !corner_passes(d, a, b, da, ab, limit) {
        return false;
    }
    if !corner_passes(a, b, c, ab, bc, limit) {
        return false;
    }
    if !corner_passes(b, c, d, bc, cd, limit) {
        return false;
    }
    corner_passes(c, d, a, cd, da, limit)
}

// The corner test of the quad `a b c d`. A side's length, the same from either end, is taken once.
pub fn corners_pass(a: Point, b: Point, c: Point, d: Point, limit: f64) -> bool
    ensures { result ≡ corners_pass limit a b c d }
{
    let ab = side_length(a, b);
    let bc = side_length(b, c);
    let cd = side_length(c, d);
    let da = side_length(d, a);
    corners_pass_with(a, b, c, d, ab, bc, cd, da, limit)
}

// The least corner value of the quad `a b c d`.
pub fn least_corner(a: Point, b: Point, c: Point, d: Point) -> f64
    ensures { result ≡ least_corner a b c d }
{
    let ab = side_length(a, b);
    let bc = side_length(b, c);
    let cd = side_length(c, d);
    let da = side_length(d, a);
    let first = float::lesser(1.0 / 0.0, corner_value(d, a, b, da, ab));
    let second = float::lesser(first, corner_value(a, b, c, ab, bc));
    let third = float::lesser(second, corner_value(b, c, d, bc, cd));
    float::lesser(third, corner_value(c, d, a, cd, da))
}

// The signed area of the quad `a b c d`.
pub fn quad_area(a: Point, b: Point, c: Point, d: Point) -> f64
    ensures { result ≡ quad_area a b c d }
{
    (0.0 + area_term(a, b) + area_term(b, c) + area_term(c, d) + area_term(d, a)) / 2.0
}
