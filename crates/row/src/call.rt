// One row on lent buffers: `next_row` with `commit_row`.
ghost use Rattle.std.specs.Prelude.{◌≡◌, ◌<◌};
ghost use Rattle.state.specs.State.{reading};
ghost use Rattle.state.specs.Call.{left, state_left};
ghost use Rattle.state.specs.Lent.{Same, held_in};
ghost use Rattle.state.specs.Refusals.{answered};
ghost use Rattle.state.specs.Sound.{Clean, Sound};
ghost use Rattle.input.specs.Job.{accepted_of, job_of};
ghost use Rattle.rules.specs.Row.{next_row};
ghost use Rattle.rules.specs.RowCall.{row_call};

use crate::step::row_on;
use input::{Accepted, Job};
use state::{Counts, Lent, Refusal};

// A row on front `li` of a state whose buffers are sound and clean; they are clean again after it. A refused row leaves everything
// as it was. Whoever lays row after row calls this for each: it tests nothing of the state but the row, and writes nothing but the
// row.
pub fn next_row(
    job: &Accepted,
    li: usize,
    lent: &mut Lent,
    counts: Counts,
) -> Result<Counts, Refusal>
    requires sound { Sound (held_in lent.old counts) }
    requires clean { Clean (held_in lent.old counts) }
    requires li_lt_fronts { li < counts.fronts }
    ensures same { Same lent.old lent.new }
    ensures left { left (answered result) (held_in lent.new counts)
        ≡ state_left (held_in lent.old counts) (next_row (accepted_of job.now) (reading (held_in lent.old counts)) li) }
{
    row_on(job, li, lent, counts, true)
}

// The row call: the job is tested, then the state, the front and the row. No refusal changes anything.
pub fn row(job: &Job, front: u64, lent: &mut Lent, counts: Counts) -> Result<Counts, Refusal>
    ensures same { Same lent.old lent.new }
    ensures left { left (answered result) (held_in lent.new counts) ≡ row_call (job_of job.now) front (held_in lent.old counts) }
{
    let accepted = job.check(lent)?;
    if lent.is_wrong(counts) {
        return Err(Refusal::State);
    }
    // as: Rust has no From between u64 and usize
    let li = front as usize;
    if counts.fronts <= li {
        return Err(Refusal::NoFront);
    }
    row_on(&accepted, li, lent, counts, false)
}
