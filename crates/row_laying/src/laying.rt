// A row that stands, laid on its front: the Rust's `commit_row`.
ghost use Rattle.std.specs.Prelude.{◌≡◌, map, ◌*◌, ◌+◌, ◌≤◌, drop, length, take};
ghost use Rattle.std.proofs.lemmas.List.Edits.{sets};
ghost use Rattle.state.specs.Limits.{point_limit, quad_limit};
ghost use Rattle.state.specs.State.{joined, numbered, quad_nodes, reading, written};
ghost use Rattle.state.specs.Call.{held};
ghost use Rattle.state.specs.Lent.{Same, held_in};
ghost use Rattle.state.specs.Sound.{Clean, Sound};
ghost use Rattle.rules.specs.Checks.{row_quads};
ghost use Rattle.rules.specs.Row.{committed};
ghost use Rattle.row_laying.specs.Room.{Room};
ghost use Rattle.row_laying.specs.Laid.{with_row};

use crate::commit::put_row_quads;
use state::{Counts, Front, Lent, front_at, nodes_of, put_all, put_numbers};

// The counts after a row of `n` nodes.
fn with_row(counts: Counts, n: usize) -> Counts
    requires { (counts.points + n ≤ point_limit) × (counts.quads + n ≤ quad_limit) × (counts.row_quads ≤ counts.quads) × (6 * counts.row_rounds ≤ counts.row_quads) }
    ensures { result ≡ with_row counts n }
{
    let laid = counts.quads + n;
    Counts {
        points: counts.points + n,
        quads: laid,
        row_quads: counts.row_quads + n,
        row_rounds: counts.row_rounds + 1,
        laid,
        ..counts
    }
}

// The row's points and quads behind the others, and the new front in the old one's place.
fn put_row(
    points: &mut [f64],
    quads: &mut [u16],
    front_nodes: &mut [u16],
    front: Front,
    counts: Counts,
    row: &[f64],
)
    requires within { front.start + front.len ≤ length front_nodes.old }
    requires room { (counts.points * 2 + length row.now ≤ length points.old) × (counts.quads * 4 + front.len * 4 ≤ length quads.old) × (counts.points + front.len ≤ point_limit) }
    ensures points { points.new ≡ sets points.old (counts.points * 2) row.now }
    ensures quads { let old = take front.len (drop front.start front_nodes.old) in
        quads.new ≡ sets quads.old (counts.quads * 4) (joined (map quad_nodes (row_quads old counts.points (length old)))) }
    ensures nodes { front_nodes.new ≡ sets front_nodes.old front.start (numbered counts.points front.len) }
{
    let first = counts.points;
    put_all(points, first * 2, row);
    let old = nodes_of(front_nodes, front.start, front.len);
    put_row_quads(quads, counts.quads * 4, old, first);
    put_numbers(front_nodes, front.start, front.len, first);
}

// Writes the new points `row` on front `li`: the row's points and quads behind the others, and the new front in the old one's
// place; answers the counts after it. Nothing else of the state changes, and the zeros behind it stand. The lengths of the fronts are
// only read.
pub fn lay_row(
    points: &mut [f64],
    quads: &mut [u16],
    front_nodes: &mut [u16],
    front_lengths: &[u16],
    counts: Counts,
    li: usize,
    row: &[f64],
) -> Counts
    requires sound { Sound (held points.old quads.old front_nodes.old front_lengths.now counts) }
    requires clean { Clean (held points.old quads.old front_nodes.old front_lengths.now counts) }
    requires room { Room (held points.old quads.old front_nodes.old front_lengths.now counts) li (length row.now) }
    ensures { held points.new quads.new front_nodes.new front_lengths.now result ≡ written (committed (reading (held points.old quads.old front_nodes.old front_lengths.now counts)) li row.now) }
{
    let front = front_at(&front_lengths[..counts.fronts], li);
    put_row(points, quads, front_nodes, front, counts, row);
    with_row(counts, front.len)
}

// The same in a `Lent`: the lengths of the fronts are read beside buffers that are written, so they are copied first.
pub fn lay_row_in(lent: &mut Lent, counts: Counts, li: usize, row: &[f64]) -> Counts
    requires sound { Sound (held_in lent.old counts) }
    requires clean { Clean (held_in lent.old counts) }
    requires room { Room (held_in lent.old counts) li (length row.now) }
    ensures same { Same lent.old lent.new }
    ensures laid { held_in lent.new result ≡ written (committed (reading (held_in lent.old counts)) li row.now) }
{
    let mut lengths = [0u16; 16];
    lengths.copy_from_slice(lent.read().front_lengths);
    lay_row(
        lent.points,
        lent.quads,
        lent.front_nodes,
        &lengths,
        counts,
        li,
        row,
    )
}
