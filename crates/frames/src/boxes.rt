// The box of the outline, and the margin around it.
ghost use Rattle.std.specs.Prelude.{◌≡◌, ◌/◌, length};
ghost use Rattle.geometry.specs.Rings.{ring_of};
ghost use Rattle.rules.specs.Fan as fans;
ghost use Rattle.fan_search.specs.Values.{boxed};
ghost use Rattle.frames.specs.Views.{margin};

use fan_search::Box;
use geometry::FirstPoints;

// What a picture shows: the outline's box, and the margin around it.
#[derive(Clone, Copy)]
pub struct Frame {
    pub bounds: Box,
    pub margin: f64,
}

impl Frame {
    // The frame of an outline with sides of `h`.
    pub fn around(coords: &[f64], h: f64) -> Frame
        ensures bounds { boxed result.bounds ≡ fans.box (ring_of coords.now (length coords.now / 2)) (length coords.now / 2) }
        ensures margin { result.margin ≡ margin (boxed result.bounds) h }
    {
        let bounds = fan_search::box_of(&FirstPoints::all(coords));
        Frame {
            bounds,
            margin: margin_of(bounds, h),
        }
    }
}

// The margin around a box.
pub fn margin_of(b: Box, h: f64) -> f64
    ensures { result ≡ margin (boxed b) h }
{
    0.05 * float::greater(b.right - b.left, b.high - b.low) + h
}
