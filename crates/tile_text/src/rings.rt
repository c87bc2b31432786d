// Lines of a letter and nodes: the sampled loops, the quads, the fronts.
ghost use Rattle.std.specs.Prelude.{◌≡◌, ◌+◌, ◌≤◌, ◌<◌, length};
ghost use Rattle.tile_text.specs.Fields.{RingsReadIs};

use crate::numbers::read_numbers;
use text::{Read, store};

// The place behind a line's end.
pub fn behind_end(text: &[u8], at: usize) -> usize
    requires { at ≤ length text.now }
    ensures { (at ≤ result) × (result ≤ length text.now) × (at < length text.now → result ≡ at + 1) }
{
    if at < text.len() { at + 1 } else { at }
}

// The lines that begin with `letter`, from `at` on, as long as they come. All their nodes are stored one after the other, and the number of nodes of each line.
pub fn read_rings(
    text: &[u8],
    at: usize,
    letter: u8,
    nodes: &mut [u16],
    lengths: &mut [u16],
) -> Read<usize>
    requires { at ≤ length text.now }
    ensures { RingsReadIs text.now at letter nodes.old nodes.new lengths.old lengths.new result }
{
    let mut next = at;
    let mut count = 0usize;
    let mut stored = 0usize;
    // by the place behind each line, which no index counts
    while next < text.len() {
        if text[next] != letter {
            return Read { value: count, next };
        }
        let line = read_numbers(text, next + 1, nodes, stored);
        store(lengths, count, u16::try_from(line.value).unwrap_or(0));
        stored += line.value;
        count += 1;
        next = behind_end(text, line.next);
    }
    Read { value: count, next }
}
