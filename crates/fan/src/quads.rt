// The quads of a fan, written into their buffer.
ghost use Rattle.std.specs.Prelude.{◌≡◌, cond, map, ◌*◌, ◌+◌, ◌/◌, ◌≤◌, length};
ghost use Rattle.std.proofs.lemmas.List.Edits.{sets};
ghost use Rattle.state.specs.Limits.{points_length};
ghost use Rattle.state.specs.State.{joined, quad, quad_nodes};
ghost use Rattle.rules.specs.Fan.{fan_quads};
ghost use Rattle.fan_search.specs.Quads.{with_centre};

use fan_search::Fan;
use state::{narrow, put_quad};

// Writes a quad from place `at` on, turned or not; its four numbers come one by one, as `put_quad` takes them.
fn put_turned(quads: &mut [u16], at: usize, turned: bool, a: u16, b: u16, c: u16, d: u16)
    requires { at + 4 ≤ length quads.old }
    ensures { quads.new ≡ sets quads.old at (quad_nodes (cond turned (quad d c b a) (quad a b c d))) }
{
    if turned {
        put_quad(quads, at, d, c, b, a);
    } else {
        put_quad(quads, at, a, b, c, d);
    }
}

// The fan's quads, from place `at` on; the centre has the number behind the points.
pub fn put_fan(quads: &mut [u16], at: usize, fan: &Fan)
    requires { (at + length fan.now.front.nodes.now / 2 * 4 ≤ length quads.old) × (length fan.now.front.pts.now ≤ points_length) }
    ensures { quads.new ≡ sets quads.old at (joined (map quad_nodes (fan_quads (with_centre fan.now.front.pts.now fan.now.centre) fan.now.front.nodes.now (length fan.now.front.pts.now / 2) (length fan.now.front.nodes.now / 2)))) }
{
    let nodes = fan.front.nodes;
    let n = nodes.len();
    let centre = narrow(fan.front.pts.len() / 2);
    for k in 0..n / 2 {
        let turned = fan.is_turned(k);
        let first = k * 2;
        let second = first + 1;
        let third = geometry::next_of(n, second);
        put_turned(
            quads,
            at + k * 4,
            turned,
            centre,
            nodes[first],
            nodes[second],
            nodes[third],
        );
    }
}
