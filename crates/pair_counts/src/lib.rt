// Whether each pair of nodes is counted never or twice over the sides of rings. It knows of no job.
// The sides are chained by their lower node, and the higher nodes of each chain are tallied: the work is linear in the sides,
// also when all of them meet in one node.
#![tactic(auto)]

ghost use Rattle.std.specs.Prelude.{◌≡◌, ◌++◌, ◌+◌, ◌≤◌};
ghost use Rattle.geometry.specs.Domain.{sum_of};
ghost use Rattle.state.specs.State.{cut};
ghost use Rattle.pair_counts.specs.Sides.{side_limit};
ghost use Rattle.pair_counts.specs.Twice.{all_twice};

mod chain;
mod chains;
mod rings;
mod sides;
mod tally;

use crate::chains::sides_twice;
use crate::sides::put_rings;
pub use rings::Rings;

// Each pair is counted never or twice over the sides of the loops, the quads and the fronts.
pub fn all_twice(loops: &Rings, quads: &Rings, fronts: &Rings) -> bool
    requires { sum_of loops.now.lengths.now + sum_of quads.now.lengths.now + sum_of fronts.now.lengths.now ≤ side_limit }
    ensures { result ≡ all_twice (cut loops.now.lengths.now loops.now.nodes.now ++ cut quads.now.lengths.now quads.now.nodes.now ++ cut fronts.now.lengths.now fronts.now.nodes.now) }
{
    let mut lows = [0u16; 20480];
    let mut highs = [0u16; 20480];
    let behind_loops = put_rings(&mut lows, &mut highs, 0, loops);
    let behind_quads = put_rings(&mut lows, &mut highs, behind_loops, quads);
    let all = put_rings(&mut lows, &mut highs, behind_quads, fronts);
    sides_twice(&lows[..all], &highs[..all])
}
