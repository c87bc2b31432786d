// The checks of a candidate row that ask where its new points stand. By place: a row is a `Ring`,
// which has no iterator; one would be one more type with its laws.
ghost use Rattle.std.specs.Prelude.{◌≡◌};
ghost use Rattle.geometry.specs.Domain.{rings};
ghost use Rattle.rules.specs.Checks.{all_clear_of, all_inside, all_off_boundary};

use geometry::{FirstPoints, NodePoints, Outline, Ring, front_distance};

// Every new point is in the domain.
pub fn all_inside(outline: &Outline, row: &FirstPoints) -> bool
    ensures { result ≡ all_inside (rings outline.now.coords.now outline.now.loop_lengths.now) row.now.pts.now row.now.n }
{
    (0..row.n).all(|i| outline.contains(row.at(i)))
}

// No new point is nearer than `least` to the boundary.
pub fn all_off_boundary(outline: &Outline, row: &FirstPoints, least: f64) -> bool
    ensures { result ≡ all_off_boundary (rings outline.now.coords.now outline.now.loop_lengths.now) least row.now.pts.now row.now.n }
{
    (0..row.n).all(|i| !(outline.distance_to_boundary(row.at(i)) < least))
}

// No new point is nearer than `least` to a front.
pub fn all_clear_of(front: &NodePoints, row: &FirstPoints, least: f64) -> bool
    ensures { result ≡ all_clear_of front.now.pts.now front.now.nodes.now least row.now.pts.now row.now.n }
{
    (0..row.n).all(|i| !(front_distance(row.at(i), front) < least))
}
