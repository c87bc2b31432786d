// The root, and the measures of sides, rings and quads. Points are passed as coordinates, x before y; a ring is a slice of
// them, whose last number counts for nothing where it has no partner.
ghost use Rattle.std.specs.Prelude.{◌≡◌};
ghost use Rattle.float.specs.Root.{root};
ghost use Rattle.geometry.specs.Measures as geometry_measures;
ghost use Rattle.input.specs.Limit.{default_limit};
ghost use Rattle.exports_geometry.specs.Measures.{point, ring, sharp_or_not};

use geometry::{FirstPoints, Point};

// The square root.
#[unsafe(no_mangle)]
pub extern "C" fn pave_root(x: f64) -> f64
    ensures { result ≡ root x }
{
    float::root(x)
}

// The length of the side from (ax, ay) to (bx, by).
#[unsafe(no_mangle)]
pub extern "C" fn pave_side_length(ax: f64, ay: f64, bx: f64, by: f64) -> f64
    ensures { result ≡ geometry_measures.side_length (point ax ay) (point bx by) }
{
    geometry::side_length(Point { x: ax, y: ay }, Point { x: bx, y: by })
}

// The distance from (x, y) to the side from (ax, ay) to (bx, by); one whose squared length is at most `short` counts as a point.
#[unsafe(no_mangle)]
pub extern "C" fn pave_segment_distance(
    short: f64,
    x: f64,
    y: f64,
    ax: f64,
    ay: f64,
    bx: f64,
    by: f64,
) -> f64
    ensures { result ≡ geometry_measures.segment_distance short (point x y) (point ax ay) (point bx by) }
{
    geometry::segment_distance(
        short,
        Point { x, y },
        Point { x: ax, y: ay },
        Point { x: bx, y: by },
    )
}

// Whether the open sides from a to b and from c to d cross.
#[unsafe(no_mangle)]
pub extern "C" fn pave_segments_cross(
    ax: f64,
    ay: f64,
    bx: f64,
    by: f64,
    cx: f64,
    cy: f64,
    dx: f64,
    dy: f64,
) -> bool
    ensures { result ≡ geometry_measures.segments_cross (point ax ay) (point bx by) (point cx cy) (point dx dy) }
{
    geometry::segments_cross(
        Point { x: ax, y: ay },
        Point { x: bx, y: by },
        Point { x: cx, y: cy },
        Point { x: dx, y: dy },
    )
}

// The corner test of the quad a b c d, with document 01's limit.
#[unsafe(no_mangle)]
pub extern "C" fn pave_corners_pass(
    ax: f64,
    ay: f64,
    bx: f64,
    by: f64,
    cx: f64,
    cy: f64,
    dx: f64,
    dy: f64,
) -> bool
    ensures { result ≡ geometry_measures.corners_pass default_limit (point ax ay) (point bx by) (point cx cy) (point dx dy) }
{
    geometry::corners_pass(
        Point { x: ax, y: ay },
        Point { x: bx, y: by },
        Point { x: cx, y: cy },
        Point { x: dx, y: dy },
        input::default_limit(),
    )
}

// The least corner value of the quad a b c d.
#[unsafe(no_mangle)]
pub extern "C" fn pave_least_corner(
    ax: f64,
    ay: f64,
    bx: f64,
    by: f64,
    cx: f64,
    cy: f64,
    dx: f64,
    dy: f64,
) -> f64
    ensures { result ≡ geometry_measures.least_corner (point ax ay) (point bx by) (point cx cy) (point dx dy) }
{
    geometry::least_corner(
        Point { x: ax, y: ay },
        Point { x: bx, y: by },
        Point { x: cx, y: cy },
        Point { x: dx, y: dy },
    )
}

// The signed area of the quad a b c d.
#[unsafe(no_mangle)]
pub extern "C" fn pave_quad_area(
    ax: f64,
    ay: f64,
    bx: f64,
    by: f64,
    cx: f64,
    cy: f64,
    dx: f64,
    dy: f64,
) -> f64
    ensures { result ≡ geometry_measures.quad_area (point ax ay) (point bx by) (point cx cy) (point dx dy) }
{
    geometry::quad_area(
        Point { x: ax, y: ay },
        Point { x: bx, y: by },
        Point { x: cx, y: cy },
        Point { x: dx, y: dy },
    )
}

// The signed area of a ring.
#[unsafe(no_mangle)]
pub extern "C" fn pave_signed_area(points: &[f64]) -> f64
    ensures { result ≡ geometry_measures.signed_area (ring points.now) }
{
    geometry::signed_area(&FirstPoints::all(points))
}

// Whether (x, y) is within a ring.
#[unsafe(no_mangle)]
pub extern "C" fn pave_in_polygon(x: f64, y: f64, points: &[f64]) -> bool
    ensures { result ≡ geometry_measures.in_polygon (point x y) (ring points.now) }
{
    geometry::in_polygon(Point { x, y }, &FirstPoints::all(points))
}

// Whether the corner at place `i` of a ring is sharp; false where the ring has no such place.
#[unsafe(no_mangle)]
pub extern "C" fn pave_sharp_at(points: &[f64], i: usize) -> bool
    ensures { result ≡ sharp_or_not points.now i }
{
    let ring = FirstPoints::all(points);
    if i < ring.n {
        return geometry::sharp_at(&ring, i);
    }
    false
}
