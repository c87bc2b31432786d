// The plate's outline as the job has it: the coordinates of all loops, one loop after the other, and the loops' lengths,
// the outer one first, then the holes. Each walk over the loops shortens the coordinates by the ring that it passed: a place beside them
// would be one number more to keep.
ghost use Rattle.std.specs.Prelude.{◌≡◌, ◌*◌, ◌≤◌, length};
ghost use Rattle.std.specs.Float.Ieee.{neg};
ghost use Rattle.float.specs.Helpers.{decimal};
ghost use Rattle.geometry.specs.Domain as domain;

use crate::Point;
use crate::rings::{FirstPoints, in_polygon, least_square, signed_area};

#[derive(Clone, Copy)]
pub struct Outline<'a> {
    pub coords: &'a [f64],
    pub loop_lengths: &'a [u16],
    ghost fits: { domain.sum_of loop_lengths.now * 2 ≤ length coords.now },
}

impl Outline<'_> {
    // The areas of the rings, by their absolute values, added up.
    fn areas(&self) -> f64
        ensures { result ≡ domain.holes_area (neg (decimal 0 0)) (domain.rings self.now.coords.now self.now.loop_lengths.now) }
    {
        let mut sum = -0.0;
        let mut ahead = self.coords;
        for n in self.loop_lengths {
            let n = usize::from(*n);
            let ring = FirstPoints { pts: ahead, n };
            sum = sum + float::absolute(signed_area(&ring));
            ahead = ring.rest();
        }
        sum
    }

    // The area within the outer loop and outside the holes: positive where the outer loop is counter-clockwise. An outline of one
    // loop is its ring.
    pub fn area(&self) -> f64
        ensures { result ≡ domain.domain_area (domain.rings self.now.coords.now self.now.loop_lengths.now) }
    {
        let Some((n, holes)) = self.loop_lengths.split_first() else {
            return 0.0;
        };
        let n = usize::from(*n);
        let ring = FirstPoints {
            pts: self.coords,
            n,
        };
        let outer = signed_area(&ring);
        if holes.is_empty() {
            return outer - -0.0;
        }
        let behind = Outline {
            coords: ring.rest(),
            loop_lengths: holes,
        };
        outer - behind.areas()
    }

    // Whether `p` is within one of the rings.
    fn some_holds(&self, p: Point) -> bool
        ensures { result ≡ domain.in_some p (domain.rings self.now.coords.now self.now.loop_lengths.now) }
    {
        let mut ahead = self.coords;
        for n in self.loop_lengths {
            let n = usize::from(*n);
            let ring = FirstPoints { pts: ahead, n };
            if in_polygon(p, &ring) {
                return true;
            }
            ahead = ring.rest();
        }
        false
    }

    // Whether `p` is within the outer loop and outside every hole. An outline of one loop is its ring here too, and that way comes
    // first: it ends in the ring's own answer and holds nothing back for the holes.
    pub fn contains(&self, p: Point) -> bool
        ensures { result ≡ domain.contains (domain.rings self.now.coords.now self.now.loop_lengths.now) p }
    {
        let Some((n, holes)) = self.loop_lengths.split_first() else {
            return false;
        };
        let n = usize::from(*n);
        let ring = FirstPoints {
            pts: self.coords,
            n,
        };
        if holes.is_empty() {
            return in_polygon(p, &ring);
        }
        if in_polygon(p, &ring) {
            let behind = Outline {
                coords: ring.rest(),
                loop_lengths: holes,
            };
            return !behind.some_holds(p);
        }
        false
    }

    // The distance from `p` to the nearest side of the outline: the root of the least square.
    pub fn distance_to_boundary(&self, p: Point) -> f64
        ensures { result ≡ domain.distance_to_boundary (domain.rings self.now.coords.now self.now.loop_lengths.now) p }
    {
        let mut least = 1.0 / 0.0;
        let mut ahead = self.coords;
        for n in self.loop_lengths {
            let n = usize::from(*n);
            let ring = FirstPoints { pts: ahead, n };
            least = least_square(0.0, p, least, &ring);
            ahead = ring.rest();
        }
        float::root(least)
    }
}
