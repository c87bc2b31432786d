// One pass: the fronts in order, and a row on each.
ghost use Rattle.std.specs.Prelude.{◌≡◌, ◌*◌, ◌<◌, length, take};
ghost use Rattle.state.specs.State.{reading};
ghost use Rattle.state.specs.Lent.{Same, held_in};
ghost use Rattle.state.specs.Refusals.{answered};
ghost use Rattle.state.specs.Sound.{Clean, Sound, sizes_of};
ghost use Rattle.input.specs.Job.{accepted_of};
ghost use Rattle.rules.specs.Passes.{one_pass};
ghost use Rattle.passes.specs.Order.{order_of};
ghost use Rattle.passes.specs.Passed.{begun_counts, passed, written_of};

use crate::order::pass_order;
use input::Accepted;
use row::next_row;
use state::{Counts, Lent, Refusal};

// The counts when a pass begins.
fn begun(counts: Counts) -> Counts
    requires { counts.passes_begun < 18446744073709551615 }
    ensures { result ≡ begun_counts counts }
{
    Counts {
        passes_begun: counts.passes_begun + 1,
        ..counts
    }
}

// The order of a pass on the state.
fn order_on(lent: &Lent, counts: Counts) -> [usize; 16]
    requires { Sound (held_in lent.now counts) }
    ensures { take (length (sizes_of (held_in lent.now counts))) result
        ≡ order_of (take (counts.points * 2) lent.now.points.now) lent.now.front_nodes.now (sizes_of (held_in lent.now counts)) }
{
    let fronts = lent.fronts(counts);
    pass_order(&fronts)
}

// A pass on a state whose buffers are sound and clean. The order of its start holds for the whole pass.
pub fn one_pass(job: &Accepted, lent: &mut Lent, counts: Counts) -> Result<Counts, Refusal>
    requires sound { Sound (held_in lent.old counts) }
    requires clean { Clean (held_in lent.old counts) }
    requires passes_begun_bound { counts.passes_begun < 18446744073709551615 }
    ensures same { Same lent.old lent.new }
    ensures passed { passed (answered result) (held_in lent.new counts)
        ≡ written_of (one_pass (accepted_of job.now) (reading (held_in lent.old counts))) }
{
    let fronts = counts.fronts;
    let order = order_on(lent, counts);
    let mut c = begun(counts);
    for li in &order[..fronts] {
        let answer = next_row(job, *li, lent, c);
        match answer {
            Ok(after) => c = after,
            Err(Refusal::Full) => return Err(Refusal::Full),
            Err(_) => {}
        }
    }
    Ok(c)
}
