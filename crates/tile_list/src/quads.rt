// Every quad of a list: four different nodes, and the corner test with the default limit. Numbers behind the last whole quad are not looked at.
ghost use Rattle.std.specs.Prelude.{◌≡◌, ℕ, ◌*◌, ◌+◌, ◌/◌, ◌<◌, get_or, length};
ghost use Rattle.state.specs.State.{quads_of};
ghost use Rattle.input.specs.Limit.{default_limit};
ghost use Rattle.rules.specs.Checks.{quad_passes};
ghost use Rattle.tile_text.specs.Reading.{quad_of};
ghost use Rattle.tile_text.specs.TileList.{every_quad, four_different};

use geometry::node_point;

// The four nodes of a quad, in order round it, differ.
fn different(nodes: &[u16; 4]) -> bool
    ensures { result ≡ four_different (quad_of nodes.now) }
{
    let (a, b, c, d) = (nodes[0], nodes[1], nodes[2], nodes[3]);
    if a == b || a == c || a == d || b == c || b == d {
        return false;
    }
    c != d
}

// closing_search has the same of its own quads; it stands above the rules, and a list's quads are std's arrays of four. The clause, here
// and in `all_pass`, and no `NodePoints`: one would be made for each quad, from this same fact of its nodes.
fn passes(points: &[f64], nodes: &[u16; 4], limit: f64) -> bool
    requires { (i : ℕ) → i < 4 → get_or nodes.now i 0 * 2 + 1 < length points.now }
    ensures { result ≡ quad_passes limit points.now (quad_of nodes.now) }
{
    let a = node_point(points, nodes, 0);
    let b = node_point(points, nodes, 1);
    let c = node_point(points, nodes, 2);
    let d = node_point(points, nodes, 3);
    geometry::corners_pass(a, b, c, d, limit)
}

// Each quad has four different nodes.
pub fn all_different(quads: &[u16]) -> bool
    ensures { result ≡ every_quad four_different (quads_of (length quads.now / 4) quads.now) }
{
    let (quads, _) = quads.as_chunks::<4>();
    quads.iter().all(different)
}

// Each quad passes the corner test.
pub fn all_pass(points: &[f64], quads: &[u16]) -> bool
    requires { (i : ℕ) → i < length quads.now → get_or quads.now i 0 * 2 + 1 < length points.now }
    ensures { result ≡ every_quad (quad_passes default_limit points.now) (quads_of (length quads.now / 4) quads.now) }
{
    let limit = input::default_limit();
    let (quads, _) = quads.as_chunks::<4>();
    quads.iter().all(|nodes| passes(points, nodes, limit))
}
