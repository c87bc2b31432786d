// The quads of an accepted row, written into their buffer.
ghost use Rattle.std.specs.Prelude.{◌≡◌, map, ◌*◌, ◌+◌, ◌≤◌, length};
ghost use Rattle.std.proofs.lemmas.List.Edits.{sets};
ghost use Rattle.state.specs.Limits.{point_limit};
ghost use Rattle.state.specs.State.{joined, quad_nodes};
ghost use Rattle.rules.specs.Checks.{row_quads};

use state::{narrow, put_quad};

// The quads of a row on the nodes `old`, from place `at` on; the new nodes are numbered from `first`.
pub fn put_row_quads(quads: &mut [u16], at: usize, old: &[u16], first: usize)
    requires { (at + length old.now * 4 ≤ length quads.old) × (first + length old.now ≤ point_limit) }
    ensures { quads.new ≡ sets quads.old at (joined (map quad_nodes (row_quads old.now first (length old.now)))) }
{
    for (i, node) in old.iter().enumerate() {
        let after = geometry::next_of(old.len(), i);
        let c = narrow(first + after);
        let d = narrow(first + i);
        put_quad(quads, at + i * 4, *node, old[after], c, d);
    }
}
