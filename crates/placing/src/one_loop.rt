// One loop sampled, with the numbers 7 and 10 in this order.
ghost use Rattle.std.specs.Prelude.{◌≡◌, ◌*◌, ◌≤◌, ◌<◌};
ghost use Rattle.std.proofs.Math.ListN as lists;
ghost use Rattle.geometry.specs.Rings.{Ring, ring_of};
ghost use Rattle.state.specs.Limits.{front_node_limit};
ghost use Rattle.planning.specs.Ring as rings;
ghost use Rattle.planning.specs.Backwards.{read_ring};
ghost use Rattle.placing.specs.Loop as loops;
ghost use Rattle.placing.specs.Placing.{MadeIs, placed_outcome};

use crate::place::place;
use geometry::FirstPoints;
use planning::{LoopRing, Spacing, all_apart, keep_points, kept_ring, plan_sides};
use state::Refusal;

// Plans a ring and writes its nodes from place `at` on, behind those of the loops before; answers how many they are.
fn plan_and_place(
    ring: LoopRing<'_>,
    spacing: Spacing,
    lengths: &mut [f64],
    spans: &mut [f64],
    points: &mut [f64],
    at: usize,
) -> Result<usize, Refusal>
    requires n_bound { (0 < ring.n) × (ring.n ≤ front_node_limit) × (ring.n ≤ lists.length lengths.old) × (ring.n ≤ lists.length spans.old) }
    requires at_bound { (at ≤ front_node_limit) × (front_node_limit * 2 ≤ lists.length points.old) }
    ensures { MadeIs spacing.h spacing.corner_margin (read_ring ring.entry) at points.old points.new
        (placed_outcome spacing.h spacing.corner_margin at (read_ring ring.entry)) result }
{
    let p = plan_sides(ring, spacing, lengths, spans);
    let total = p.total;
    let odd = total % 2;
    let planned = total + odd;
    if 2048 < at + planned {
        return Err(Refusal::ManyNodes);
    }
    // the side that gets one more inner point
    let longer = (odd == 1).then_some(p.longest);
    place(ring, spacing, lengths, spans, longer, points, at);
    Ok(planned)
}

// Samples any loop of which these points are kept and writes its nodes from place `at` on.
fn sample_kept(
    pts: &[f64],
    ccw: bool,
    spacing: Spacing,
    lengths: &mut [f64],
    spans: &mut [f64],
    points: &mut [f64],
    at: usize,
) -> Result<usize, Refusal>
    requires few { (lists.length pts.now ≤ front_node_limit * 2) × (lists.length pts.now ≤ lists.length lengths.old * 2) × (lists.length pts.now ≤ lists.length spans.old * 2) }
    requires at_bound { (at ≤ front_node_limit) × (front_node_limit * 2 ≤ lists.length points.old) }
    ensures { (given : Ring) → pts.now ≡ rings.kept (rings.closeness spacing.h) given given.size
        → MadeIs spacing.h spacing.corner_margin (rings.loop_ring spacing.h ccw given) at points.old points.new (loops.sample_loop spacing.h spacing.corner_margin at ccw given) result }
{
    let ring = kept_ring(pts, spacing.h, ccw);
    if ring.n < 3 {
        return Err(Refusal::FewPoints);
    }
    plan_and_place(ring, spacing, lengths, spans, points, at)
}

// Samples a loop and writes its nodes from place `at` on, behind those of the loops before; answers how many they are. `buffer`,
// `lengths` and `spans` are for the work; a loop that keeps all its points needs no copy. Tried as one `&mut Work`: the borrow
// checker covers fields that are all lent to be written, but not `&work.buffer[..end]`, which is read, beside `work.lengths`, nor
// such a part of a field that a pattern took out.
pub fn sample_loop(
    given: &FirstPoints<'_>,
    ccw: bool,
    spacing: Spacing,
    buffer: &mut [f64],
    lengths: &mut [f64],
    spans: &mut [f64],
    points: &mut [f64],
    at: usize,
) -> Result<usize, Refusal>
    requires n_bound { (given.now.n ≤ front_node_limit) × (given.now.n * 2 ≤ lists.length buffer.old) × (given.now.n ≤ lists.length lengths.old) × (given.now.n ≤ lists.length spans.old) }
    requires at_bound { (at ≤ front_node_limit) × (front_node_limit * 2 ≤ lists.length points.old) }
    ensures { MadeIs spacing.h spacing.corner_margin (rings.loop_ring spacing.h ccw (ring_of given.now.pts.now given.now.n)) at points.old points.new
        (loops.sample_loop spacing.h spacing.corner_margin at ccw (ring_of given.now.pts.now given.now.n)) result }
{
    if all_apart(given, spacing.h) {
        let end = given.n * 2;
        return sample_kept(&given.pts[..end], ccw, spacing, lengths, spans, points, at);
    }
    let kept = keep_points(given, spacing.h, buffer);
    let end = kept * 2;
    sample_kept(&buffer[..end], ccw, spacing, lengths, spans, points, at)
}
