// A list's text, read whole. Where the text is no list's writing, something is read all the same; the caller writes it again and compares.
ghost use Rattle.std.specs.Prelude.{◌≡◌, length};
ghost use Rattle.state.specs.Limits.{points_length};
ghost use Rattle.tile_text.specs.Fields.{ListReadIs, Same, lists_in};

use crate::counts::read_done;
use crate::points::read_points;
use crate::rings::read_rings;
use state::Counts;

// The buffers that a list is read into: the loops' nodes and lengths, the state's points, the quads' nodes and lengths, the fronts'.
#[derive(Drop)]
pub struct ListBuffers<'a> {
    pub loop_nodes: &'a mut [u16],
    pub loop_lengths: &'a mut [u16],
    pub points: &'a mut [f64],
    pub quads: &'a mut [u16],
    pub quad_lengths: &'a mut [u16],
    pub front_nodes: &'a mut [u16],
    pub front_lengths: &'a mut [u16],
}

// How many loops there are, and the counts of the state.
#[derive(Clone, Copy)]
pub struct ListRead {
    pub loops: usize,
    pub counts: Counts,
}

// `s` lines, the `done` line, `p`, `q` and `f` lines. The first three counts are those of the lines that came.
pub fn read_list(text: &[u8], into: &mut ListBuffers) -> ListRead
    requires { length into.old.points.now ≡ points_length }
    ensures same { Same into.old into.new }
    ensures read { ListReadIs text.now (lists_in into.old) (lists_in into.new) result }
{
    let loops = read_rings(text, 0, b's', into.loop_nodes, into.loop_lengths);
    let done = read_done(text, loops.next);
    let p = read_points(text, done.next, into.points);
    let q = read_rings(text, p.next, b'q', into.quads, into.quad_lengths);
    let f = read_rings(text, q.next, b'f', into.front_nodes, into.front_lengths);
    ListRead {
        loops: loops.value,
        counts: Counts {
            points: p.value,
            quads: q.value,
            fronts: f.value,
            ..done.value
        },
    }
}
