// A box that grows point by point.
ghost use Rattle.std.specs.Prelude.{◌≡◌, true, false};
ghost use Rattle.std.specs.Float.{inf};
ghost use Rattle.float.specs.Helpers.{greater, lesser};

use crate::Box;
use geometry::Point;

impl Box {
    // The box of no point.
    #[tactic(auto, using(crate::proofs::Literals::inf_is, crate::proofs::Literals::minus_inf_is))]
    pub fn empty() -> Box
        ensures { result ≡ record { left = inf false; low = inf false; right = inf true; high = inf true } }
    {
        Box {
            left: f64::INFINITY,
            low: f64::INFINITY,
            right: f64::NEG_INFINITY,
            high: f64::NEG_INFINITY,
        }
    }

    // The box of one point more.
    pub fn with(self, p: Point) -> Box
        ensures { result ≡ record { left = lesser self.left p.x; low = lesser self.low p.y; right = greater self.right p.x; high = greater self.high p.y } }
    {
        Box {
            left: float::lesser(self.left, p.x),
            low: float::lesser(self.low, p.y),
            right: float::greater(self.right, p.x),
            high: float::greater(self.high, p.y),
        }
    }
}
