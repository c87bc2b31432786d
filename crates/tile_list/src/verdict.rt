// Whether a text is readable, and what is wrong with the list.
ghost use Rattle.std.specs.Prelude.{◌≡◌, true, map, ◌≤◌, length, take};
ghost use Rattle.state.specs.State.{quad_nodes, quads_of};
ghost use Rattle.tile_list.specs.Recheck.{list_room, list_number};
ghost use Rattle.tile_list.specs.Steps.{ReadFrom, ReadableIs, allowed_held, list_of, loops_in, state_in, verdict_number};

use crate::error::ListError;
use crate::list::HeldList;
use crate::quads::all_pass;
use pair_counts::{Rings, all_twice};

impl HeldList<'_> {
    // Whether the text is that of the list in the buffers: the list is allowed, and its writing is the text.
    pub fn is_readable(&self, out: &mut [u8], input: &[u8]) -> bool
        requires room { list_room ≤ length out.old }
        requires read { ReadFrom input.now self.now }
        ensures { ReadableIs input.now out.new (list_of self.now) result }
    {
        if !self.is_allowed() {
            return false;
        }
        let end = self.put(out);
        input == &out[..end]
    }

    // The pairs of nodes, then the corners.
    pub fn check(&self) -> Result<(), ListError>
        requires allowed { allowed_held (state_in self.now) (loops_in self.now) ≡ true }
        requires fours { take self.now.counts.quads self.now.quad_lengths.now ≡ map length (map quad_nodes (quads_of self.now.counts.quads self.now.state.quads.now)) }
        ensures { verdict_number result ≡ list_number (list_of self.now) }
    {
        let counts = self.counts;
        let loops = Rings {
            nodes: self.loop_nodes,
            lengths: &self.loop_lengths[..self.loops],
        };
        let quads = Rings {
            nodes: self.state.quads,
            lengths: &self.quad_lengths[..counts.quads],
        };
        let fronts = Rings {
            nodes: self.state.front_nodes,
            lengths: &self.state.front_lengths[..counts.fronts],
        };
        if !all_twice(&loops, &quads, &fronts) {
            return Err(ListError::WrongPair);
        }
        if !all_pass(
            &self.state.points[..counts.points * 2],
            &self.state.quads[..counts.quads * 4],
        ) {
            return Err(ListError::WrongCorner);
        }
        Ok(())
    }
}
