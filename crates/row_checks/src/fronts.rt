// The distance of a candidate row to the other fronts.
ghost use Rattle.std.specs.Prelude.{◌≡◌, ◌||◌};
ghost use Rattle.state.specs.State.{cut};
ghost use Rattle.rules.specs.Checks.{all_clear_of, all_clear_of_fronts};

use crate::checks::all_clear_of;
use crate::far::{all_far, is_bound};
use geometry::{FirstPoints, NodePoints};
use state::Fronts;

// The front is the row's own, or no new point is nearer than `least` to it. A front that is far by squares needs no measuring.
fn own_or_clear(own: bool, front: &NodePoints, row: &FirstPoints, least: f64) -> bool
    ensures { result ≡ (own || all_clear_of front.now.pts.now front.now.nodes.now least row.now.pts.now row.now.n) }
{
    let bound = least * least * 1.000001;
    own || (is_bound(bound, least) && all_far(front, row, bound)) || all_clear_of(front, row, least)
}

// No new point is nearer than `least` to a front other than front `li`.
pub fn clear_of_fronts(fronts: &Fronts, li: usize, row: &FirstPoints, least: f64) -> bool
    ensures { result ≡ all_clear_of_fronts fronts.now.points.now (cut fronts.now.lengths.now fronts.now.nodes.now) li least row.now.pts.now row.now.n }
{
    // `start` is summed by hand: `scan` would keep the same sum inside a closure.
    let mut start = 0;
    for (other, len) in fronts.lengths.iter().enumerate() {
        let len = usize::from(*len);
        let front = fronts.ring(start, len);
        let own = other == li;
        if !own_or_clear(own, &front, row, least) {
            return false;
        }
        start += len;
    }
    true
}
