// The fan on lent buffers: the Rust's `fan_fill`.
ghost use Rattle.std.specs.Prelude.{◌≡◌, [], true, ◌≤◌, Float, get_or};
ghost use Rattle.geometry.specs.Domain.{rings};
ghost use Rattle.geometry.specs.Rings.{node_ring};
ghost use Rattle.state.specs.Outcome.{outcome};
ghost use Rattle.state.specs.State.{reading};
ghost use Rattle.state.specs.Call.{left, state_left};
ghost use Rattle.state.specs.Lent.{Same, held_in};
ghost use Rattle.state.specs.Refusals.{answered};
ghost use Rattle.state.specs.Sound.{Clean, Sound};
ghost use Rattle.input.specs.declared.Options.{Options};
ghost use Rattle.input.specs.Job as inputs;
ghost use Rattle.rules.specs.Fan.{centre, fan};
ghost use Rattle.fan_search.specs.Numbers.{fan_number};

use crate::laying::lay_fan;
use fan_search::try_fan;
use geometry::Point;
use input::Accepted;
use state::{Counts, Lent, Refusal};

// The centre of the fan of the one front, if the fan stands.
fn try_on(job: &Accepted, lent: &Lent, counts: Counts) -> Result<Point, Refusal>
    requires sound { Sound (held_in lent.now counts) }
    requires one { counts.fronts ≡ 1 }
    ensures { let s = reading (held_in lent.now counts) in let f = get_or s.fronts 0 [] in let outline = rings job.now.outline.coords.now job.now.outline.loop_lengths.now in
        answered result ≡ outcome (fan_number job.now.options.corner_limit outline s.points f counts.quads) (centre outline (node_ring s.points f)).point }
{
    let n = usize::from(lent.front_lengths[0]);
    let front = lent.fronts(counts).ring(0, n);
    try_fan(&job.outline, &front, counts.quads, job.options.corner_limit)
}

// The fan of the one front. Buffers that are not `clean` get their zeros before the fan is laid, and a refused fan leaves everything
// as it was.
fn fan_one(job: &Accepted, lent: &mut Lent, counts: Counts, clean: bool) -> Result<Counts, Refusal>
    requires sound { Sound (held_in lent.old counts) }
    requires clean { clean ≡ true → Clean (held_in lent.old counts) }
    requires one { counts.fronts ≡ 1 }
    requires core_quads_bound { counts.core_quads ≤ counts.quads }
    ensures same { Same lent.old lent.new }
    ensures left { (h : Float) (options : Options) → left (answered result) (held_in lent.new counts)
        ≡ state_left (held_in lent.old counts)
        (fan job.now.options.corner_limit (inputs.job job.now.outline.coords.now job.now.outline.loop_lengths.now h options) (reading (held_in lent.old counts))) }
{
    let centre = try_on(job, lent, counts)?;
    lent.clear_behind(clean, counts);
    let after = lay_fan(lent, counts, centre);
    Ok(after)
}

// A fan on a state whose buffers are sound; buffers that are `clean` are clean again after it. With no front it adds nothing. It tests
// nothing of the state but the fan. Of the job it takes the outline and the corner limit: the size and the other options may be any. A
// refused fan must leave the buffers, so zeros may be written only after the trial; `clean` says whether there are any to write, and two
// functions would differ in that one call.
pub fn fan_fill(
    job: &Accepted,
    lent: &mut Lent,
    counts: Counts,
    clean: bool,
) -> Result<Counts, Refusal>
    requires sound { Sound (held_in lent.old counts) }
    requires clean { clean ≡ true → Clean (held_in lent.old counts) }
    requires core_quads_bound { counts.core_quads ≤ counts.quads }
    ensures same { Same lent.old lent.new }
    ensures left { (h : Float) (options : Options) → left (answered result) (held_in lent.new counts)
        ≡ state_left (held_in lent.old counts)
        (fan job.now.options.corner_limit (inputs.job job.now.outline.coords.now job.now.outline.loop_lengths.now h options) (reading (held_in lent.old counts))) }
{
    match counts.fronts {
        0 => {
            lent.clear_behind(clean, counts);
            Ok(counts)
        }
        1 => fan_one(job, lent, counts, clean),
        _ => Err(Refusal::Fronts),
    }
}
