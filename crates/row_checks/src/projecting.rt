// A front's node projected inward. Each f64 operation is rounded once, in the Rust's order.
ghost use Rattle.std.specs.Prelude.{◌≡◌, ◌&&◌, cond};
ghost use Rattle.std.specs.Float.Ieee.{lt};
ghost use Rattle.float.specs.Helpers.{decimal};
ghost use Rattle.geometry.specs.F64.{◌⊗◌};
ghost use Rattle.geometry.specs.Measures.{sharp_turn, side_length};
ghost use Rattle.rules.specs.Projecting as projecting;

use geometry::Point;
use rules::Projection;

// What a left turn above 30 degrees adds to the distance.
fn extra(cross: f64, dot: f64, h: f64) -> f64
    ensures { result ≡ cond (lt (decimal 0 0) cross && sharp_turn cross dot) (decimal 25 2 ⊗ h) (decimal 0 0) }
{
    if cross > 0.0 {
        if geometry::sharp_turn(cross, dot) {
            return 0.25 * h;
        }
    }
    0.0
}

// The point that `here` goes to, with the neighbours `before` and `after` at the distances `l1` and `l2`; nothing where a side is
// too short or the angle too acute.
pub fn project(before: Point, here: Point, after: Point, l1: f64, l2: f64, h: f64) -> Projection
    requires { (l1 ≡ side_length before here) × (l2 ≡ side_length here after) }
    ensures { result ≡ projecting.project before here after h }
{
    if l1 < 1e-12 {
        return Projection::Nothing;
    }
    if l2 < 1e-12 {
        return Projection::Nothing;
    }
    let x1 = (here.x - before.x) / l1;
    let y1 = (here.y - before.y) / l1;
    let x2 = (after.x - here.x) / l2;
    let y2 = (after.y - here.y) / l2;
    let bis_x = -y1 + -y2;
    let bis_y = x1 + x2;
    let bis_length = float::root(bis_x * bis_x + bis_y * bis_y);
    if bis_length < 1e-9 {
        return Projection::Nothing;
    }
    let s = bis_length / 2.0;
    if s < 0.2 {
        return Projection::Nothing;
    }
    let more = extra(x1 * y2 - y1 * x2, x1 * x2 + y1 * y2, h);
    let distance = float::lesser(h / s + more, 3.0 * h);
    Projection::At(
        here.x + bis_x / bis_length * distance,
        here.y + bis_y / bis_length * distance,
    )
}
