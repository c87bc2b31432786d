// A row tried on a front of the lent state, and laid where it stands.
ghost use Rattle.std.specs.Prelude.{◌≡◌, IfOk, [], true, ◌*◌, ◌<◌, ◌≤◌, get_or, length, take};
ghost use Rattle.geometry.specs.Rings.{node_ring};
ghost use Rattle.state.specs.State.{cut, reading};
ghost use Rattle.state.specs.Call.{left, state_left};
ghost use Rattle.state.specs.Lent.{Same, held_in};
ghost use Rattle.state.specs.Refusals.{answered, refusal_of};
ghost use Rattle.state.specs.Sound.{Clean, Sound, sizes_of};
ghost use Rattle.input.specs.Job.{accepted_of};
ghost use Rattle.rules.specs.Checks.{new_points};
ghost use Rattle.rules.specs.Row.{next_row, row_number};

use input::Accepted;
use row_checks::try_row;
use row_laying::lay_row_in;
use state::{Counts, Lent, Refusal};

// A row on front `li` of the state tried. When it stands its points are the first of `row`, and the answer is how many.
fn try_on(
    job: &Accepted,
    lent: &Lent,
    counts: Counts,
    li: usize,
    row: &mut [f64],
) -> Result<usize, Refusal>
    requires sound { Sound (held_in lent.now counts) }
    requires li_lt_fronts { li < counts.fronts }
    requires room { get_or (sizes_of (held_in lent.now counts)) li 0 * 2 ≤ length row.old }
    ensures value { refusal_of result ≡ row_number (accepted_of job.now) (take (counts.points * 2) lent.now.points.now) (cut (sizes_of (held_in lent.now counts)) lent.now.front_nodes.now) counts.quads li }
    ensures points { IfOk result (λ n. n ≡ get_or (sizes_of (held_in lent.now counts)) li 0) }
    ensures row_after { refusal_of result ≡ 0 → take (get_or (sizes_of (held_in lent.now counts)) li 0 * 2) row.new
        ≡ new_points (node_ring (take (counts.points * 2) lent.now.points.now) (get_or (cut (sizes_of (held_in lent.now counts)) lent.now.front_nodes.now) li [])) job.now.h (get_or (sizes_of (held_in lent.now counts)) li 0) }
{
    let fronts = lent.fronts(counts);
    try_row(job, &fronts, counts.quads, li, row)
}

// A row on front `li`, projected into an array of `N` numbers. A refused row leaves the buffers as they are, so zeros are written only
// after the trial; `clean` says whether there are any to write, and two functions would differ in that one call.
fn row_in<const N: usize>(
    job: &Accepted,
    li: usize,
    lent: &mut Lent,
    counts: Counts,
    clean: bool,
) -> Result<Counts, Refusal>
    requires sound { Sound (held_in lent.old counts) }
    requires clean { clean ≡ true → Clean (held_in lent.old counts) }
    requires li_lt_fronts { li < counts.fronts }
    requires room { (get_or lent.old.front_lengths.now li 0 * 2 ≤ N) × (N ≤ 4096) }
    ensures same { Same lent.old lent.new }
    ensures left { left (answered result) (held_in lent.new counts)
        ≡ state_left (held_in lent.old counts) (next_row (accepted_of job.now) (reading (held_in lent.old counts)) li) }
{
    let mut row = [0.0; N];
    let n = try_on(job, lent, counts, li, &mut row)?;
    lent.clear_behind(clean, counts);
    let after = lay_row_in(lent, counts, li, &row[..n * 2]);
    Ok(after)
}

// The same for every front. Most fronts are short, and a smaller array is made sooner.
pub fn row_on(
    job: &Accepted,
    li: usize,
    lent: &mut Lent,
    counts: Counts,
    clean: bool,
) -> Result<Counts, Refusal>
    requires sound { Sound (held_in lent.old counts) }
    requires clean { clean ≡ true → Clean (held_in lent.old counts) }
    requires li_lt_fronts { li < counts.fronts }
    ensures same { Same lent.old lent.new }
    ensures left { left (answered result) (held_in lent.new counts)
        ≡ state_left (held_in lent.old counts) (next_row (accepted_of job.now) (reading (held_in lent.old counts)) li) }
{
    if lent.front_lengths[li] <= 64 {
        row_in::<128>(job, li, lent, counts, clean)
    } else {
        row_in::<4096>(job, li, lent, counts, clean)
    }
}
