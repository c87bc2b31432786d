// The closings on lent buffers.
ghost use Rattle.std.specs.Prelude.{◌≡◌, true};
ghost use Rattle.state.specs.State.{reading};
ghost use Rattle.state.specs.Call.{left, state_left};
ghost use Rattle.state.specs.Lent.{Same, held_in};
ghost use Rattle.state.specs.Refusals.{answered};
ghost use Rattle.state.specs.Sound.{Clean, Sound};
ghost use Rattle.rules.specs.Closing.{closings};

use crate::keeping::keep_fronts;
use crate::laying::{count_quads, put_closures};
use closing_search::find_closures;
use state::{Counts, Lent, Refusal};

// The closings of a state whose buffers are sound. A refusal leaves the buffers, so zeros and quads are written only after all quads are found.
// `clean` says whether there are zeros to write: a flag, as two functions would differ in that one call.
pub fn close_small_fronts(
    lent: &mut Lent,
    counts: Counts,
    limit: f64,
    clean: bool,
) -> Result<Counts, Refusal>
    requires sound { Sound (held_in lent.old counts) }
    requires clean { clean ≡ true → Clean (held_in lent.old counts) }
    ensures same { Same lent.old lent.new }
    ensures left { left (answered result) (held_in lent.new counts)
        ≡ state_left (held_in lent.old counts) (closings limit (reading (held_in lent.old counts))) }
{
    let laid = counts.quads;
    let all = find_closures(&lent.fronts(counts), limit);
    let closures = &all[..counts.fronts];
    let n = count_quads(closures);
    // the quads alone: a closing adds no points, which `is_full` would test again
    if 4096 < laid + n {
        return Err(Refusal::Full);
    }
    lent.clear_behind(clean, counts);
    put_closures(lent.quads, laid * 4, closures);
    let left = keep_fronts(lent.front_nodes, lent.front_lengths, closures);
    Ok(Counts {
        quads: laid + n,
        fronts: left,
        row_quads: counts.row_quads + n,
        ..counts
    })
}
