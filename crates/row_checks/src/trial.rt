// A row tried: the projections of a front's nodes, and the checks on them. Nothing lent is written here.
ghost use Rattle.std.specs.Prelude.{◌≡◌, IfOk, cond, [], ◌%◌, ◌*◌, ◌<◌, ◌≤◌, get_or, length, take};
ghost use Rattle.geometry.specs.Rings.{node_ring};
ghost use Rattle.rules.specs.Checks.{all_project, new_points};
ghost use Rattle.rules.specs.Row.{rest_stands, row_number};
ghost use Rattle.state.specs.Limits.{quad_limit};
ghost use Rattle.state.specs.State.{cut};
ghost use Rattle.input.specs.Job.{accepted_of};
ghost use Rattle.state.specs.Refusals.{refusal_of};

use crate::checks::{all_inside, all_off_boundary};
use crate::fronts::clear_of_fronts;
use crate::projecting::project;
use crate::quads::all_quads_stand;
use crossing::is_simple;
use geometry::{FirstPoints, NodePoints, Ring};
use input::Accepted;
use rules::Projection;
use state::{Fronts, Refusal, front_at, is_full};

// The projections of a ring's nodes, from the front of `row`; refused when a node does not project. A side's length serves the nodes
// at both of its ends.
pub fn project_row<R: Ring>(ring: &R, h: f64, row: &mut [f64]) -> Result<(), Refusal>
    requires { (0 < (R.ring ring.now).size) × ((R.ring ring.now).size * 2 ≤ length row.old) }
    ensures value { refusal_of result ≡ cond (all_project (R.ring ring.now) h) 0 22 }
    ensures row_after { refusal_of result ≡ 0 → take ((R.ring ring.now).size * 2) row.new ≡ new_points (R.ring ring.now) h (R.ring ring.now).size }
{
    let n = ring.size();
    let last = geometry::prev_of(n, 0);
    let mut a = ring.at(last);
    let mut b = ring.at(0);
    let mut l1 = geometry::side_length(a, b);
    for i in 0..n {
        let after = geometry::next_of(n, i);
        let c = ring.at(after);
        let l2 = geometry::side_length(b, c);
        let Projection::At(x, y) = project(a, b, c, l1, l2, h) else {
            return Err(Refusal::Row);
        };
        geometry::put_point(row, i, x, y);
        a = b;
        b = c;
        l1 = l2;
    }
    Ok(())
}

// The checks that follow the projection, on the new points `row` of front `li`, whose nodes are `old`. Each refuses with the same
// number, so the dear ones, on the other fronts and on pairs of sides, come last.
fn rest_stands(
    job: &Accepted,
    fronts: &Fronts,
    li: usize,
    old: &NodePoints,
    row: &FirstPoints,
) -> bool
    requires even { length fronts.now.points.now % 2 ≡ 0 }
    requires front { (li < length fronts.now.lengths.now) × (old.now.pts.now ≡ fronts.now.points.now)
        × (old.now.nodes.now ≡ get_or (cut fronts.now.lengths.now fronts.now.nodes.now) li []) }
    requires row { (0 < row.now.n) × (row.now.n ≡ length old.now.nodes.now) }
    ensures { result ≡ rest_stands (accepted_of job.now) fronts.now.points.now (cut fronts.now.lengths.now fronts.now.nodes.now) li row.now.pts.now }
{
    let Accepted {
        outline,
        h,
        options,
    } = *job;
    let least = options.min_edge_fraction * h;
    let gap = options.front_gap * h;
    all_inside(&outline, row)
        && all_off_boundary(&outline, row, 0.05 * h)
        && all_quads_stand(old, row, least, options.corner_limit)
        && clear_of_fronts(fronts, li, row, gap)
        && is_simple(row)
}

// A row on front `li` tried, where `quads` quads are laid. When it stands its points are the first of `row`, and the answer is how many.
#[tactic(auto, using(state::proofs::Cutting::total_within, crate::proofs::Standing::number_is, crate::proofs::Standing::front_long, std::proofs::lemmas::Bool::Decides::nat_tests))]
pub fn try_row(
    job: &Accepted,
    fronts: &Fronts,
    quads: usize,
    li: usize,
    row: &mut [f64],
) -> Result<usize, Refusal>
    requires even { length fronts.now.points.now % 2 ≡ 0 }
    requires room { (li < length fronts.now.lengths.now) × (quads ≤ quad_limit) × (get_or fronts.now.lengths.now li 0 * 2 ≤ length row.old) }
    ensures value { refusal_of result ≡ row_number (accepted_of job.now) fronts.now.points.now (cut fronts.now.lengths.now fronts.now.nodes.now) quads li }
    ensures points { IfOk result (λ n. n ≡ get_or fronts.now.lengths.now li 0) }
    ensures row_after { refusal_of result ≡ 0 → take (get_or fronts.now.lengths.now li 0 * 2) row.new
        ≡ new_points (node_ring fronts.now.points.now (get_or (cut fronts.now.lengths.now fronts.now.nodes.now) li [])) job.now.h (get_or fronts.now.lengths.now li 0) }
{
    let front = front_at(fronts.lengths, li);
    let n = front.len;
    if n < 6 {
        return Err(Refusal::Row);
    }
    let old = fronts.ring(front.start, n);
    project_row(&old, job.h, row)?;
    let m = n * 2;
    let tried = FirstPoints { pts: &row[..m], n };
    if !rest_stands(job, fronts, li, &old, &tried) {
        return Err(Refusal::Row);
    }
    if is_full(fronts.points.len() / 2 + n, quads + n) {
        return Err(Refusal::Full);
    }
    Ok(n)
}
