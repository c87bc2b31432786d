// The checks of a candidate row on its sides and quads. Quad i is old i, old i + 1, new i + 1, new i; a rung is its side from an old
// node to the new point, and the next quad has it too.
ghost use Rattle.std.specs.Prelude.{◌≡◌, ◌&&◌, ◌<◌, length};
ghost use Rattle.rules.specs.Checks.{all_long_enough};
ghost use Rattle.row_checks.specs.Candidate.{corners_between};

use geometry::{FirstPoints, NodePoints, Ring};

// No new side is shorter than `least`, and every quad between the old nodes and the new points passes the corner test.
pub fn all_quads_stand(old: &NodePoints, row: &FirstPoints, least: f64, limit: f64) -> bool
    requires { (0 < row.now.n) × (row.now.n ≡ length old.now.nodes.now) }
    ensures { result ≡ (all_long_enough least row.now.pts.now row.now.n && corners_between limit old.now.pts.now old.now.nodes.now row.now.pts.now row.now.n) }
{
    let n = row.n;
    let mut a = old.at(0);
    let mut d = row.at(0);
    let mut rung = geometry::side_length(a, d);
    for i in 0..n {
        let after = geometry::next_of(n, i);
        let b = old.at(after);
        let c = row.at(after);
        let new_side = geometry::side_length(d, c);
        if new_side < least {
            return false;
        }
        let old_side = geometry::side_length(a, b);
        let next_rung = geometry::side_length(b, c);
        if !geometry::corners_pass_with(a, b, c, d, old_side, next_rung, new_side, rung, limit) {
            return false;
        }
        a = b;
        d = c;
        rung = next_rung;
    }
    true
}
