// The calls over lent buffers: 8,192 f64 for points, 16,384 u16 for quads, 2,048 for front nodes, 16 for front lengths, and
// the eight counts in document 01's order. Each answers 0 or a refusal's number; another length of a buffer is number 1.
// The parameters stand apart, as the header for C has them: the options one by one, and each buffer as its own slice. The bodies differ
// in the call that they make, and each of C's names needs one.
ghost use Rattle.std.specs.Prelude.{◌≡◌, length};
ghost use Rattle.state.specs.Call.{lengths_of};
ghost use Rattle.input.specs.Job.{job};
ghost use Rattle.sampling.specs.Sample.{sample_call};
ghost use Rattle.rules.specs.Calls.{job_call};
ghost use Rattle.exports_counts.specs.Calls.{job_passed, options_of, passed};

use exports_counts::{no_counts, options_of, put_answer};
use input::Job;
use state::{Lent, numbered};

// The sampled loops as fronts, or zeros in every buffer, whatever the buffers held.
#[unsafe(no_mangle)]
pub extern "C" fn pave_sample(
    coords: &[f64],
    loop_lengths: &[u16],
    h: f64,
    corner_margin: f64,
    min_edge_fraction: f64,
    front_gap: f64,
    max_row_rounds: u64,
    seam: bool,
    corner_limit: f64,
    points: &mut [f64],
    quads: &mut [u16],
    front_nodes: &mut [u16],
    front_lengths: &mut [u16],
    counts: &mut [u64],
) -> u32
    ensures { passed result points.new quads.new front_nodes.new front_lengths.new counts.new
        ≡ job_passed
        (sample_call (job coords.now loop_lengths.now h (options_of corner_margin min_edge_fraction front_gap max_row_rounds seam corner_limit))
        (lengths_of (length points.old) (length quads.old) (length front_nodes.old) (length front_lengths.old)))
        (lengths_of (length points.old) (length quads.old) (length front_nodes.old) (length front_lengths.old)) (length counts.old) }
{
    let mut lent = Lent {
        points,
        quads,
        front_nodes,
        front_lengths,
    };
    let Some(counts) = counts.as_mut_array::<8>() else {
        lent.clear();
        counts.fill(0);
        return 1;
    };
    let options = options_of(
        corner_margin,
        min_edge_fraction,
        front_gap,
        max_row_rounds,
        seam,
        corner_limit,
    );
    let job = Job {
        coords,
        loop_lengths,
        h,
        options,
    };
    let answer = sampling::sample(&job, &mut lent);
    put_answer(counts, no_counts(), numbered(answer))
}

// The whole job: sampling, passes of rows, closings; or zeros in every buffer, whatever the buffers held.
#[unsafe(no_mangle)]
pub extern "C" fn pave_job(
    coords: &[f64],
    loop_lengths: &[u16],
    h: f64,
    corner_margin: f64,
    min_edge_fraction: f64,
    front_gap: f64,
    max_row_rounds: u64,
    seam: bool,
    corner_limit: f64,
    points: &mut [f64],
    quads: &mut [u16],
    front_nodes: &mut [u16],
    front_lengths: &mut [u16],
    counts: &mut [u64],
) -> u32
    ensures { passed result points.new quads.new front_nodes.new front_lengths.new counts.new
        ≡ job_passed
        (job_call (job coords.now loop_lengths.now h (options_of corner_margin min_edge_fraction front_gap max_row_rounds seam corner_limit))
        (lengths_of (length points.old) (length quads.old) (length front_nodes.old) (length front_lengths.old)))
        (lengths_of (length points.old) (length quads.old) (length front_nodes.old) (length front_lengths.old)) (length counts.old) }
{
    let mut lent = Lent {
        points,
        quads,
        front_nodes,
        front_lengths,
    };
    let Some(counts) = counts.as_mut_array::<8>() else {
        lent.clear();
        counts.fill(0);
        return 1;
    };
    let options = options_of(
        corner_margin,
        min_edge_fraction,
        front_gap,
        max_row_rounds,
        seam,
        corner_limit,
    );
    let job = Job {
        coords,
        loop_lengths,
        h,
        options,
    };
    let answer = job::job(&job, &mut lent);
    put_answer(counts, no_counts(), numbered(answer))
}
