// A front that is surely clear of a row. Side by side: what a side gives to the distance of any point is taken once, and the row's
// points are looked at by place, since a row has no iterator, which would be one more type with its laws, and without an early end, so
// that they can be taken two at a time. Where one square is below the bound nothing is decided: `own_or_clear` then measures the front.
ghost use Rattle.std.specs.Prelude.{◌≡◌};
ghost use Rattle.row_checks.specs.Far.{all_far, far_side, is_bound};

use geometry::{FirstPoints, NodePoints, Point, Ring};

// Whether no square from `bound` on is that of a distance less than `least`. The root keeps the order, so the bound's root tells. `&`, and
// not `&&`: no branch between the three.
pub fn is_bound(bound: f64, least: f64) -> bool
    ensures { result ≡ is_bound bound least }
{
    (0.0 < least) & (0.0 < bound) & (least <= float::root(bound))
}

// Whether the side from `a` to `b` is not short, and the squares of the distances from the row's points to it are at least `bound`.
fn far_side(short: f64, row: &FirstPoints, a: Point, b: Point, bound: f64) -> bool
    ensures { result ≡ far_side short bound row.now.pts.now row.now.n a b }
{
    let abx = b.x - a.x;
    let aby = b.y - a.y;
    let length2 = abx * abx + aby * aby;
    if length2 <= short {
        return false;
    }
    let mut far = true;
    for i in 0..row.n {
        let p = row.at(i);
        let apx = p.x - a.x;
        let apy = p.y - a.y;
        let t = float::clamp_unit((apx * abx + apy * aby) / length2);
        let qpx = p.x - (a.x + t * abx);
        let qpy = p.y - (a.y + t * aby);
        far &= bound <= qpx * qpx + qpy * qpy;
    }
    far
}

// Whether every side of a front is far from the row.
pub fn all_far(front: &NodePoints, row: &FirstPoints, bound: f64) -> bool
    ensures { result ≡ all_far bound front.now.pts.now front.now.nodes.now row.now.pts.now row.now.n }
{
    let n = front.size();
    (0..n).all(|i| {
        let j = geometry::next_of(n, i);
        far_side(1e-18, row, front.at(i), front.at(j), bound)
    })
}
