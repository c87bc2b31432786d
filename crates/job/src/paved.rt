// The steps of a job, one after the other; the first that is refused ends it.
ghost use Rattle.std.specs.Prelude.{◌≡◌, cond, eqb};
ghost use Rattle.state.specs.State.{no_counts};
ghost use Rattle.state.specs.Outcome.{refused};
ghost use Rattle.state.specs.Lent.{Same, held_in, lengths_in};
ghost use Rattle.state.specs.Refusals.{answered};
ghost use Rattle.input.specs.Job.{input_number, job_of};
ghost use Rattle.rules.specs.Calls.{paved};
ghost use Rattle.passes.specs.Passed.{passed, written_of};

use closing::close_small_fronts;
use input::Job;
use passes::some_passes;
use sampling::put_loops;
use state::{Counts, Lent, Refusal};

// What `put_loops` leaves is written and clean, and so is what each step leaves, so no place is cleared between the steps. A
// refusal says nothing of the buffers: they may hold a part of the job, and `job` clears them.
pub fn pave(job: &Job, lent: &mut Lent) -> Result<Counts, Refusal>
    ensures same { Same lent.old lent.new }
    ensures passed { let input = input_number (job_of job.now) (lengths_in lent.old) in
        passed (answered result) (held_in lent.new no_counts) ≡ written_of (cond (eqb input 0) (paved (job_of job.now)) (refused input)) }
{
    let accepted = job.check(lent)?;
    let start = put_loops(&accepted, lent)?;
    let laid = some_passes(&accepted, accepted.options.max_row_rounds, lent, start)?;
    close_small_fronts(lent, laid, accepted.options.corner_limit, true)
}
