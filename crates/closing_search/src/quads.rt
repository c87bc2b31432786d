// A quad on the points: its area's sign, the corner test and its least corner value.
ghost use Rattle.std.specs.Prelude.{◌≡◌, ◌*◌, ◌+◌, ◌<◌, length};
ghost use Rattle.geometry.specs.Rings.{point_at};
ghost use Rattle.rules.specs.Checks.{quad_passes};
ghost use Rattle.rules.specs.Closing.{area_of, least_of, turned_quad};
ghost use Rattle.closing_search.specs.Closures.{Within, quad_of};

use geometry::{Point, point_at};

// Four nodes, or their points, in order round a quad.
#[derive(Clone, Copy)]
pub struct Quad<T> {
    pub a: T,
    pub b: T,
    pub c: T,
    pub d: T,
}

impl Quad<u16> {
    fn corners(self, points: &[f64]) -> Quad<Point>
        requires { Within (length points.now) self }
        ensures { result ≡ record { a = point_at points.now self.a; b = point_at points.now self.b; c = point_at points.now self.c; d = point_at points.now self.d } }
    {
        Quad {
            a: point_at(points, usize::from(self.a)),
            b: point_at(points, usize::from(self.b)),
            c: point_at(points, usize::from(self.c)),
            d: point_at(points, usize::from(self.d)),
        }
    }

    // The Rust's `signed_quad_area`.
    fn area(self, points: &[f64]) -> f64
        requires { Within (length points.now) self }
        ensures { result ≡ area_of points.now (quad_of self) }
    {
        let Quad { a, b, c, d } = self.corners(points);
        geometry::quad_area(a, b, c, d)
    }

    // The Rust's `quad_ok`.
    #[tactic(auto, unfolding(rules::specs::Checks::quad_passes))]
    pub fn passes(self, points: &[f64], limit: f64) -> bool
        requires { Within (length points.now) self }
        ensures { result ≡ quad_passes limit points.now (quad_of self) }
    {
        let Quad { a, b, c, d } = self.corners(points);
        geometry::corners_pass(a, b, c, d, limit)
    }

    // The least of its corner values.
    #[tactic(auto, unfolding(rules::specs::Closing::least_of))]
    pub fn least(self, points: &[f64]) -> f64
        requires { Within (length points.now) self }
        ensures { result ≡ least_of points.now (quad_of self) }
    {
        let Quad { a, b, c, d } = self.corners(points);
        geometry::least_corner(a, b, c, d)
    }

    // The same nodes the other way round.
    fn reversed(self) -> Quad<u16>
        ensures { result ≡ record { a = self.d; b = self.c; c = self.b; d = self.a } }
    {
        Quad {
            a: self.d,
            b: self.c,
            c: self.b,
            d: self.a,
        }
    }

    // Reversed if its signed area is negative.
    #[tactic(auto, using(float::proofs::Literals::zero_is), unfolding(rules::specs::Closing::turned_quad))]
    pub fn turned(self, points: &[f64]) -> Quad<u16>
        requires { Within (length points.now) self }
        ensures { (quad_of result ≡ turned_quad points.now (quad_of self)) × Within (length points.now) result }
    {
        if self.area(points) < 0.0 {
            self.reversed()
        } else {
            self
        }
    }
}
