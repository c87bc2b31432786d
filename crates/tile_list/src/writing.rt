// A list written: the sampled loops, then the state.
ghost use Rattle.std.specs.Prelude.{◌≡◌, true, ◌≤◌, length};
ghost use Rattle.text.specs.Putting.{Put};
ghost use Rattle.tile_text.specs.TileList.{list_text};
ghost use Rattle.tile_list.specs.Recheck.{list_room};
ghost use Rattle.tile_list.specs.Steps.{allowed_held, list_of, loops_in, state_in};

use crate::list::HeldList;
use answer_text::{put_held, put_rings};
use text::Writer;

impl HeldList<'_> {
    pub fn put(&self, out: &mut [u8]) -> usize
        requires room { list_room ≤ length out.old }
        requires allowed { allowed_held (state_in self.now) (loops_in self.now) ≡ true }
        ensures put { Put out.old 0 (list_text (list_of self.now)) out.new result }
        ensures upper_bound { result ≤ list_room }
    {
        let mut w = Writer { out, at: 0 };
        put_rings(
            &mut w,
            b's',
            self.loop_nodes,
            &self.loop_lengths[..self.loops],
        );
        put_held(&mut w, &self.state, self.counts);
        w.at
    }
}
