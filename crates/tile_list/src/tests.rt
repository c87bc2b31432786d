// Which lists are readable: number 25 for the state, the same for the loops in the place of the fronts, and what is left of the list's rules.
ghost use Rattle.std.specs.Prelude.{◌≡◌};
ghost use Rattle.tile_list.specs.Steps.{allowed_held, loops_in, state_in};

use crate::list::HeldList;
use crate::quads::all_different;
use state::{Buffers, Counts};

impl HeldList<'_> {
    pub fn is_allowed(&self) -> bool
        ensures { result ≡ allowed_held (state_in self.now) (loops_in self.now) }
    {
        let counts = self.counts;
        if self.state.is_wrong(counts) {
            return false;
        }
        let others = Counts {
            fronts: self.loops,
            ..counts
        };
        let loops = Buffers {
            front_nodes: self.loop_nodes,
            front_lengths: self.loop_lengths,
            ..self.state
        };
        if loops.is_wrong(others) {
            return false;
        }
        if self.loops == 0 {
            return false;
        }
        if 64 < counts.passes_begun {
            return false;
        }
        all_different(&self.state.quads[..counts.quads * 4])
    }
}
