// The quads of a fan. Quad k has the centre and the front nodes at the places 2k, 2k + 1 and the one after, and is turned if its signed
// area is negative.
ghost use Rattle.std.specs.Prelude.{◌≡◌, ◌%◌, ◌/◌, ◌<◌, get_or, length};
ghost use Rattle.std.specs.Float.Ieee.{lt};
ghost use Rattle.float.specs.Helpers.{decimal};
ghost use Rattle.state.specs.State.{quad};
ghost use Rattle.rules.specs.Checks.{every, quad_passes};
ghost use Rattle.rules.specs.Closing.{area_of, turned_quad};
ghost use Rattle.rules.specs.Fan.{fan_quads};
ghost use Rattle.fan_search.specs.Quads.{plain_quad, three_at, with_centre};

use crate::Three;
use geometry::{NodePoints, Point, Ring};

// A front of an even number of nodes, and the centre of its fan, which stands behind the points.
#[derive(Clone, Copy)]
pub struct Fan<'a> {
    pub front: NodePoints<'a>,
    pub centre: Point,
    ghost even: { length front.nodes.now % 2 ≡ 0 },
    ghost whole: { length front.pts.now % 2 ≡ 0 },
}

impl Fan<'_> {
    // The points of the front nodes of quad `k`.
    fn three_at(&self, k: usize) -> Three
        requires { k < length self.now.front.nodes.now / 2 }
        ensures { result ≡ three_at self.now.front.pts.now self.now.front.nodes.now k }
    {
        let front = self.front;
        let n = front.size();
        let first = k * 2;
        let second = first + 1;
        let third = geometry::next_of(n, second);
        Three {
            a: front.at(first),
            b: front.at(second),
            c: front.at(third),
        }
    }

    // Whether quad `k` is turned.
    pub fn is_turned(&self, k: usize) -> bool
        requires { k < length self.now.front.nodes.now / 2 }
        ensures { result ≡ lt (area_of (with_centre self.now.front.pts.now self.now.centre) (plain_quad self.now.front.nodes.now (length self.now.front.pts.now / 2) k)) (decimal 0 0) }
    {
        let Three { a, b, c } = self.three_at(k);
        geometry::quad_area(self.centre, a, b, c) < 0.0
    }

    // Whether quad `k` passes the corner test.
    fn passes(&self, limit: f64, k: usize) -> bool
        requires { k < length self.now.front.nodes.now / 2 }
        ensures { result ≡ quad_passes limit (with_centre self.now.front.pts.now self.now.centre) (turned_quad (with_centre self.now.front.pts.now self.now.centre) (plain_quad self.now.front.nodes.now (length self.now.front.pts.now / 2) k)) }
    {
        let Three { a, b, c } = self.three_at(k);
        let p = self.centre;
        if geometry::quad_area(p, a, b, c) < 0.0 {
            return geometry::corners_pass(c, b, a, p, limit);
        }
        geometry::corners_pass(p, a, b, c, limit)
    }

    // Whether every quad passes. Nothing is written for it.
    pub fn all_pass(&self, limit: f64) -> bool
        ensures { result ≡ every (λ i. quad_passes limit (with_centre self.now.front.pts.now self.now.centre) (get_or (fan_quads (with_centre self.now.front.pts.now self.now.centre) self.now.front.nodes.now (length self.now.front.pts.now / 2) (length self.now.front.nodes.now / 2)) i (quad 0 0 0 0))) (length self.now.front.nodes.now / 2) }
    {
        (0..self.front.nodes.len() / 2).all(|k| self.passes(limit, k))
    }
}
