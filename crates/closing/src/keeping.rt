// The fronts that are kept, moved together in the lent buffers.
ghost use Rattle.std.specs.Prelude.{◌≡◌, map, ◌+◌, ◌<◌, ◌≤◌, drop, length, set, take};
ghost use Rattle.std.proofs.lemmas.List.Edits.{sets};
ghost use Rattle.geometry.specs.Domain.{sum_of};
ghost use Rattle.state.specs.State.{cut, joined, padded};
ghost use Rattle.closing.specs.Keeping.{kept_by, marks_of};

use closing_search::Closure;
use state::fill_from;

// Where the next kept front goes: its place among the nodes, and among the lengths.
#[derive(Clone, Copy)]
pub struct Place {
    pub node: usize,
    pub front: usize,
}

// A front of `len` nodes from place `start` on, moved to its place; answers the place of the next.
fn move_front(
    front_nodes: &mut [u16],
    front_lengths: &mut [u16],
    start: usize,
    len: u16,
    place: Place,
) -> Place
    requires { (place.node ≤ start) × (start + len ≤ length front_nodes.old) × (place.front < length front_lengths.old) }
    ensures value { result ≡ record { node = place.node + len; front = place.front + 1 } }
    ensures front_nodes_after { front_nodes.new ≡ sets front_nodes.old place.node (take len (drop start front_nodes.old)) }
    ensures front_lengths_after { front_lengths.new ≡ set front_lengths.old place.front len }
{
    let n = usize::from(len);
    front_nodes.copy_within(start..start + n, place.node);
    front_lengths[place.front] = len;
    Place {
        node: place.node + n,
        front: place.front + 1,
    }
}

// The fronts whose closure is `Kept`, moved together, with zeros behind them; answers how many there are.
pub fn keep_fronts(
    front_nodes: &mut [u16],
    front_lengths: &mut [u16],
    closures: &[Closure],
) -> usize
    requires { (length closures.now ≤ length front_lengths.old) × (sum_of (take (length closures.now) front_lengths.old) ≤ length front_nodes.old) }
    ensures value { result ≡ length (kept_by (marks_of closures.now) (cut (take (length closures.now) front_lengths.old) front_nodes.old) (length closures.now)) }
    ensures front_nodes_after { front_nodes.new ≡ padded (length front_nodes.old) 0 (joined (kept_by (marks_of closures.now) (cut (take (length closures.now) front_lengths.old) front_nodes.old) (length closures.now))) }
    ensures front_lengths_after { front_lengths.new ≡ padded (length front_lengths.old) 0 (map length (kept_by (marks_of closures.now) (cut (take (length closures.now) front_lengths.old) front_nodes.old) (length closures.now))) }
{
    let mut place = Place { node: 0, front: 0 };
    // A walk by hand: `scan` would hold the lengths, which the moves write.
    let mut start = 0;
    for (li, &closure) in closures.iter().enumerate() {
        let len = front_lengths[li];
        if closure.is_kept() {
            place = move_front(front_nodes, front_lengths, start, len, place);
        }
        start += usize::from(len);
    }
    fill_from(front_nodes, place.node, 0);
    fill_from(front_lengths, place.front, 0);
    place.front
}
