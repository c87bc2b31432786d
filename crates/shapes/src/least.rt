// The least corner values of tiles.
ghost use Rattle.std.specs.Prelude.{false, ◌≡◌, ◌/◌, length};
ghost use Rattle.std.specs.Float.{inf};
ghost use Rattle.state.specs.State.{quads_of};
ghost use Rattle.shapes.specs.Shapes as shapes;

use crate::rings::place_of;

// The least corner value of a quad's four nodes.
pub fn worst_of(points: &[f64], nodes: &[u16; 4]) -> f64
    ensures { result ≡ shapes.worst_of points.now (shapes.quad_at nodes.now) }
{
    let a = place_of(points, nodes[0]);
    let b = place_of(points, nodes[1]);
    let c = place_of(points, nodes[2]);
    let d = place_of(points, nodes[3]);
    geometry::least_corner(a, b, c, d)
}

// The least corner value of all quads.
pub fn worst(points: &[f64], quads: &[u16]) -> f64
    ensures { result ≡ shapes.worst (inf false) points.now (quads_of (length quads.now / 4) quads.now) }
{
    let mut least = f64::INFINITY;
    let (tiles, _) = quads.as_chunks::<4>();
    for nodes in tiles {
        least = float::lesser(least, worst_of(points, nodes));
    }
    least
}
