// The fan call.
ghost use Rattle.std.specs.Prelude.{◌≡◌};
ghost use Rattle.state.specs.Call.{left};
ghost use Rattle.state.specs.Lent.{Same, held_in};
ghost use Rattle.state.specs.Refusals.{answered};
ghost use Rattle.input.specs.Job.{job_of};
ghost use Rattle.rules.specs.Calls.{fan_call};

use crate::step::fan_fill;
use input::Job;
use state::{Counts, Lent, Refusal};

// Numbers 1 to 6 for the job, 25 for the state, then 23, 24, 26, 21 and 27, in that order. No refusal changes anything.
pub fn fan(job: &Job, lent: &mut Lent, counts: Counts) -> Result<Counts, Refusal>
    ensures same { Same lent.old lent.new }
    ensures left { left (answered result) (held_in lent.new counts) ≡ fan_call (job_of job.now) (held_in lent.old counts) }
{
    let accepted = job.check(lent)?;
    if lent.is_wrong(counts) {
        return Err(Refusal::State);
    }
    fan_fill(&accepted, lent, counts, false)
}
