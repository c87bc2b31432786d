// Several passes.
ghost use Rattle.std.specs.Prelude.{◌≡◌, ◌+◌, ◌≤◌};
ghost use Rattle.state.specs.State.{reading};
ghost use Rattle.state.specs.Lent.{Same, held_in};
ghost use Rattle.state.specs.Refusals.{answered};
ghost use Rattle.state.specs.Sound.{Clean, Sound};
ghost use Rattle.input.specs.Job.{accepted_of};
ghost use Rattle.rules.specs.Passes.{some_passes};
ghost use Rattle.passes.specs.Passed.{passed, written_of};

use crate::pass::one_pass;
use input::Accepted;
use state::{Counts, Lent, Refusal};

// At most `most` passes on a state whose buffers are sound and clean; a pass that adds no row is the last.
pub fn some_passes(
    job: &Accepted,
    most: u64,
    lent: &mut Lent,
    counts: Counts,
) -> Result<Counts, Refusal>
    requires sound { Sound (held_in lent.old counts) }
    requires clean { Clean (held_in lent.old counts) }
    requires most_bound { counts.passes_begun + most ≤ 18446744073709551615 }
    ensures same { Same lent.old lent.new }
    ensures passed { passed (answered result) (held_in lent.new counts)
        ≡ written_of (some_passes (accepted_of job.now) most (reading (held_in lent.old counts))) }
{
    let mut c = counts;
    for _ in 0..most {
        let after = one_pass(job, lent, c)?;
        if after.row_rounds == c.row_rounds {
            return Ok(after);
        }
        c = after;
    }
    Ok(c)
}
