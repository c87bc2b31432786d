// The job call: the whole path of `mesh_with_stats_options` up to and with `close_small_fronts`.
ghost use Rattle.std.specs.Prelude.{◌≡◌};
ghost use Rattle.state.specs.State.{no_counts};
ghost use Rattle.state.specs.Call.{left};
ghost use Rattle.state.specs.Lent.{Same, held_in, lengths_in};
ghost use Rattle.state.specs.Refusals.{answered};
ghost use Rattle.input.specs.Job.{job_of};
ghost use Rattle.rules.specs.Calls.{job_call};

use crate::paved::pave;
use input::Job;
use state::{Counts, Lent, Refusal};

// Numbers 1 to 10, and 21; zeros in every place of every buffer when it is refused, whatever the lengths and whichever step refused it.
pub fn job(job: &Job, lent: &mut Lent) -> Result<Counts, Refusal>
    ensures same { Same lent.old lent.new }
    ensures left { left (answered result) (held_in lent.new no_counts) ≡ job_call (job_of job.now) (lengths_in lent.old) }
{
    match pave(job, lent) {
        Err(refusal) => {
            lent.clear();
            Err(refusal)
        }
        Ok(counts) => Ok(counts),
    }
}
