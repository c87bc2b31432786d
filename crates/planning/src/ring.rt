// A loop's ring: the kept points, read backwards when the loop is turned.
ghost use Rattle.std.specs.Prelude.{◌≡◌, not, ◌*◌, ◌≤◌, ◌<◌, length};
ghost use Rattle.std.specs.Bool.{beq};
ghost use Rattle.std.specs.Float.Ieee.{lt};
ghost use Rattle.float.specs.Helpers.{decimal};
ghost use Rattle.geometry.specs.Rings as specs;
ghost use Rattle.geometry.specs.Rings.{ring_of};
ghost use Rattle.geometry.specs.Measures as measures;
ghost use Rattle.planning.specs.Ring as rings;
ghost use Rattle.planning.specs.Backwards.{read_ring};

use crate::keep::{closeness, unclosed};
use crate::loop_ring::LoopRing;
use geometry::{FirstPoints, Point, Ring};

impl<'a> Ring for LoopRing<'a> {
    ghost ring = { λ s. read_ring s };

    fn size(&self) -> usize {
        self.n
    }

    fn at(&self, i: usize) -> Point {
        let place = if self.back { self.n - 1 - i } else { i };
        geometry::point_at(self.pts, place)
    }
}

// The outer loop is turned when its area is not positive, a hole when its area is positive.
fn turns(ring: &FirstPoints<'_>, ccw: bool) -> bool
    ensures { result ≡ not (beq (lt (decimal 0 0) (measures.signed_area (ring_of ring.now.pts.now ring.now.n))) ccw) }
{
    (0.0 < geometry::signed_area(ring)) != ccw
}

// Finds the ring of any loop of which these points are kept.
pub fn kept_ring(pts: &[f64], h: f64, ccw: bool) -> LoopRing<'_>
    ensures points { result.pts.now ≡ pts.now }
    ensures within { result.n * 2 ≤ length pts.now }
    ensures found { (given : specs.Ring) → pts.now ≡ rings.kept (rings.closeness h) given given.size → rings.loop_ring h ccw given ≡ read_ring result }
{
    let kept = FirstPoints {
        pts,
        n: pts.len() / 2,
    };
    let n = unclosed(&kept, closeness(h));
    let back = turns(&FirstPoints { pts, n }, ccw);
    LoopRing { pts, n, back }
}
