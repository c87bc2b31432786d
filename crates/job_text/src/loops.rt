// The loops of a job's text. Points and lengths are stored while they fit, and all are counted: reading goes on to the text's end,
// since an unreadable text is 11 however many points come before. The two buffers, and that they have a job's lengths, come one by one:
// a struct of them would be made for the one call of `read_loops`, and taken apart in it and in `read_holes`, which store to each by turns.
ghost use Rattle.std.specs.Prelude.{◌≡◌, ◌*◌, ◌≤◌, length, drop};
ghost use Rattle.input.specs.Job.{loop_limit, pair_limit};
ghost use Rattle.job_text.specs.Answers.{LoopReadIs, holes_at, loops_from, storing, stored, stored_in};

use crate::lines::read_at;
use state::narrow;
use text::{Read, behind, store, store_point};

// All loops: how many pairs of coordinates, and how many loops.
#[derive(Clone, Copy, PartialEq, Eq, Debug)]
pub struct LoopsRead {
    pub pairs: usize,
    pub loops: usize,
}

// `at` lines from `at` on, as long as they come, stored from pair `pairs` on, and counted.
fn read_loop(text: &[u8], at: usize, coords: &mut [f64], pairs: usize) -> Read<usize>
    requires { (at ≤ length text.now) × (pairs ≤ at) × (length coords.old ≡ pair_limit * 2) }
    ensures { LoopReadIs text.now at pairs coords.old coords.new result }
{
    let mut next = at;
    let mut count = 0usize;
    // by the place behind each line, which no index counts
    while let Some(line) = read_at(text, next) {
        store_point(coords, pairs + count, line.value.x, line.value.y);
        count += 1;
        next = line.next;
    }
    Read { value: count, next }
}

// Holes from `at` up to the text's end, behind an outer loop of `outer` points.
fn read_holes(
    text: &[u8],
    at: usize,
    coords: &mut [f64],
    loop_lengths: &mut [u16],
    outer: usize,
) -> Option<LoopsRead>
    requires { (at ≤ length text.now) × (length text.now ≤ 65536) × (outer ≤ at) × (length coords.old ≡ pair_limit * 2) × (length loop_lengths.old ≡ loop_limit) }
    ensures { stored_in result coords.new loop_lengths.new ≡ storing (stored coords.old loop_lengths.old outer 1) (holes_at text.now at) }
{
    let mut pairs = outer;
    let mut loops = 1usize;
    let mut next = at;
    // by the place behind each hole, which no index counts
    while next < text.len() {
        let at = behind(text, next, b"hole\n")?;
        let hole = read_loop(text, at, coords, pairs);
        store(loop_lengths, loops, narrow(hole.value));
        pairs += hole.value;
        loops += 1;
        next = hole.next;
    }
    Some(LoopsRead { pairs, loops })
}

// The outer loop from `at` on, and the holes up to the text's end.
pub fn read_loops(
    text: &[u8],
    at: usize,
    coords: &mut [f64],
    loop_lengths: &mut [u16],
) -> Option<LoopsRead>
    requires { (at ≤ length text.now) × (length text.now ≤ 65536) × (1 ≤ at) × (length coords.old ≡ pair_limit * 2) × (length loop_lengths.old ≡ loop_limit) }
    ensures { stored_in result coords.new loop_lengths.new ≡ storing (stored coords.old loop_lengths.old 0 0) (loops_from (drop at text.now)) }
{
    let outer = read_loop(text, at, coords, 0);
    store(loop_lengths, 0, narrow(outer.value));
    read_holes(text, outer.next, coords, loop_lengths, outer.value)
}
