// The calls over lent buffers: 8,192 f64 for points, 16,384 u16 for quads, 2,048 for front nodes, 16 for front lengths, and
// the eight counts in document 01's order. Each answers 0 or a refusal's number; another length of a buffer is number 1.
// The parameters stand apart, as the header for C has them: the options one by one, and each buffer as its own slice. The bodies differ
// in the call that they make, and each of C's names needs one.
ghost use Rattle.std.specs.Prelude.{◌≡◌};
ghost use Rattle.input.specs.Job.{job};
ghost use Rattle.rules.specs.RowCall.{row_call};
ghost use Rattle.rules.specs.Calls.{close_call, fan_call};
ghost use Rattle.exports_counts.specs.Calls.{options_of, passed, state_passed};

use exports_counts::{counts_of, options_of, put_answer};
use input::Job;
use state::{Lent, numbered};

// A row laid on front `front` of the state in the buffers, or nothing changed.
#[unsafe(no_mangle)]
pub extern "C" fn pave_row(
    coords: &[f64],
    loop_lengths: &[u16],
    h: f64,
    corner_margin: f64,
    min_edge_fraction: f64,
    front_gap: f64,
    max_row_rounds: u64,
    seam: bool,
    corner_limit: f64,
    front: u64,
    points: &mut [f64],
    quads: &mut [u16],
    front_nodes: &mut [u16],
    front_lengths: &mut [u16],
    counts: &mut [u64],
) -> u32
    ensures { passed result points.new quads.new front_nodes.new front_lengths.new counts.new
        ≡ state_passed
        (row_call (job coords.now loop_lengths.now h (options_of corner_margin min_edge_fraction front_gap max_row_rounds seam corner_limit)) front)
        points.old quads.old front_nodes.old front_lengths.old counts.old }
{
    let Some(counts) = counts.as_mut_array::<8>() else {
        return 1;
    };
    let before = counts_of(counts);
    let options = options_of(
        corner_margin,
        min_edge_fraction,
        front_gap,
        max_row_rounds,
        seam,
        corner_limit,
    );
    let job = Job {
        coords,
        loop_lengths,
        h,
        options,
    };
    let mut lent = Lent {
        points,
        quads,
        front_nodes,
        front_lengths,
    };
    let answer = row::row(&job, front, &mut lent, before);
    put_answer(counts, before, numbered(answer))
}

// The fronts of four and six nodes of the state in the buffers closed, or nothing changed.
#[unsafe(no_mangle)]
pub extern "C" fn pave_close(
    coords: &[f64],
    loop_lengths: &[u16],
    h: f64,
    corner_margin: f64,
    min_edge_fraction: f64,
    front_gap: f64,
    max_row_rounds: u64,
    seam: bool,
    corner_limit: f64,
    points: &mut [f64],
    quads: &mut [u16],
    front_nodes: &mut [u16],
    front_lengths: &mut [u16],
    counts: &mut [u64],
) -> u32
    ensures { passed result points.new quads.new front_nodes.new front_lengths.new counts.new
        ≡ state_passed
        (close_call (job coords.now loop_lengths.now h (options_of corner_margin min_edge_fraction front_gap max_row_rounds seam corner_limit)))
        points.old quads.old front_nodes.old front_lengths.old counts.old }
{
    let Some(counts) = counts.as_mut_array::<8>() else {
        return 1;
    };
    let before = counts_of(counts);
    let options = options_of(
        corner_margin,
        min_edge_fraction,
        front_gap,
        max_row_rounds,
        seam,
        corner_limit,
    );
    let job = Job {
        coords,
        loop_lengths,
        h,
        options,
    };
    let mut lent = Lent {
        points,
        quads,
        front_nodes,
        front_lengths,
    };
    let answer = closing::close(&job, &mut lent, before);
    put_answer(counts, before, numbered(answer))
}

// The one front of the state in the buffers fanned, or nothing changed.
#[unsafe(no_mangle)]
pub extern "C" fn pave_fan(
    coords: &[f64],
    loop_lengths: &[u16],
    h: f64,
    corner_margin: f64,
    min_edge_fraction: f64,
    front_gap: f64,
    max_row_rounds: u64,
    seam: bool,
    corner_limit: f64,
    points: &mut [f64],
    quads: &mut [u16],
    front_nodes: &mut [u16],
    front_lengths: &mut [u16],
    counts: &mut [u64],
) -> u32
    ensures { passed result points.new quads.new front_nodes.new front_lengths.new counts.new
        ≡ state_passed
        (fan_call (job coords.now loop_lengths.now h (options_of corner_margin min_edge_fraction front_gap max_row_rounds seam corner_limit)))
        points.old quads.old front_nodes.old front_lengths.old counts.old }
{
    let Some(counts) = counts.as_mut_array::<8>() else {
        return 1;
    };
    let before = counts_of(counts);
    let options = options_of(
        corner_margin,
        min_edge_fraction,
        front_gap,
        max_row_rounds,
        seam,
        corner_limit,
    );
    let job = Job {
        coords,
        loop_lengths,
        h,
        options,
    };
    let mut lent = Lent {
        points,
        quads,
        front_nodes,
        front_lengths,
    };
    let answer = fan::fan(&job, &mut lent, before);
    put_answer(counts, before, numbered(answer))
}
