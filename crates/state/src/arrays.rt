// The four buffers of a state as arrays, for a caller that has none to lend.
ghost use Rattle.std.specs.Prelude.{◌≡◌};
ghost use Rattle.state.specs.State as states;
ghost use Rattle.state.specs.Call as calls;
ghost use Rattle.state.specs.Lent as lents;

use crate::Lent;

#[derive(Drop)]
pub struct Arrays {
    points: [f64; 8192],
    quads: [u16; 16384],
    front_nodes: [u16; 2048],
    front_lengths: [u16; 16],
}

impl Arrays {
    pub fn zeros() -> Arrays
        ensures { calls.held result.points result.quads result.front_nodes result.front_lengths states.no_counts ≡ states.zeros calls.lent }
    {
        Arrays {
            points: [0.0; 8192],
            quads: [0; 16384],
            front_nodes: [0; 2048],
            front_lengths: [0; 16],
        }
    }

    pub fn lend(&mut self) -> Lent<'_>
        ensures long { lents.lengths_in result ≡ calls.lent }
        ensures held { lents.held_in result states.no_counts ≡ calls.held self.old.points self.old.quads self.old.front_nodes self.old.front_lengths states.no_counts }
    {
        let Arrays {
            points,
            quads,
            front_nodes,
            front_lengths,
        } = self;
        Lent {
            points,
            quads,
            front_nodes,
            front_lengths,
        }
    }
}
