// All loops sampled, one after the other.
ghost use Rattle.std.specs.Prelude.{◌≡◌, ◌*◌, ◌≤◌, length};
ghost use Rattle.state.specs.Limits.{front_node_limit};
ghost use Rattle.input.specs.Job.{accepted_of};
ghost use Rattle.sampling.specs.Sampled.{Room, TotalIs, Whole};

use geometry::FirstPoints;
use input::Accepted;
use placing::sample_loop;
use planning::Spacing;
use state::{Refusal, narrow, put_numbers};

// Samples the loops in turn and writes their nodes from the fronts of the lent buffers on; answers how many nodes they have. `buffer`,
// `lengths` and `spans` are for the work. Three of the lent buffers and no `Lent`: the fourth, the quads, is not touched, and no clause
// has to say so. How many nodes there are so far goes from loop to loop: `try_fold` would have the sum, and the call, in a closure.
fn loops_in_turn(
    job: &Accepted,
    points: &mut [f64],
    front_nodes: &mut [u16],
    front_lengths: &mut [u16],
    buffer: &mut [f64],
    lengths: &mut [f64],
    spans: &mut [f64],
) -> Result<usize, Refusal>
    requires job { Whole (accepted_of job.now) }
    requires room { Room points.old front_nodes.old front_lengths.old }
    requires work { (length job.now.outline.coords.now ≤ length buffer.old) × (length job.now.outline.coords.now ≤ length lengths.old * 2) × (length job.now.outline.coords.now ≤ length spans.old * 2) }
    ensures { TotalIs job.now.outline.coords.now job.now.outline.loop_lengths.now job.now.h job.now.options.corner_margin points.old points.new
        front_nodes.old front_nodes.new front_lengths.old front_lengths.new result }
{
    let spacing = Spacing {
        h: job.h,
        corner_margin: job.options.corner_margin,
    };
    let mut ahead = job.outline.coords;
    let mut nodes = 0usize;
    for (k, n) in job.outline.loop_lengths.iter().enumerate() {
        let given = FirstPoints {
            pts: ahead,
            n: usize::from(*n),
        };
        let more = sample_loop(
            &given,
            k == 0,
            spacing,
            buffer,
            lengths,
            spans,
            points,
            nodes,
        )?;
        put_numbers(front_nodes, nodes, more, nodes);
        front_lengths[k] = narrow(more);
        ahead = given.rest();
        nodes += more;
    }
    Ok(nodes)
}

// The same in arrays for jobs of at most `POINTS` points, which have twice as many `NUMBERS`: the two are parameters because Rattle has
// no computed const argument.
fn loops_with_room<const POINTS: usize, const NUMBERS: usize>(
    job: &Accepted,
    points: &mut [f64],
    front_nodes: &mut [u16],
    front_lengths: &mut [u16],
) -> Result<usize, Refusal>
    requires job { Whole (accepted_of job.now) }
    requires room { Room points.old front_nodes.old front_lengths.old }
    requires work { (length job.now.outline.coords.now ≤ NUMBERS) × (NUMBERS ≡ POINTS * 2) × (POINTS ≤ front_node_limit) }
    ensures { TotalIs job.now.outline.coords.now job.now.outline.loop_lengths.now job.now.h job.now.options.corner_margin points.old points.new
        front_nodes.old front_nodes.new front_lengths.old front_lengths.new result }
{
    let mut buffer = [0.0; NUMBERS];
    let mut lengths = [0.0; POINTS];
    let mut spans = [0.0; POINTS];
    loops_in_turn(
        job,
        points,
        front_nodes,
        front_lengths,
        &mut buffer,
        &mut lengths,
        &mut spans,
    )
}

// Samples the loops of an accepted job. Most jobs have few points, and smaller arrays are made sooner.
pub fn sample_loops(
    job: &Accepted,
    points: &mut [f64],
    front_nodes: &mut [u16],
    front_lengths: &mut [u16],
) -> Result<usize, Refusal>
    requires job { Whole (accepted_of job.now) }
    requires room { Room points.old front_nodes.old front_lengths.old }
    ensures { TotalIs job.now.outline.coords.now job.now.outline.loop_lengths.now job.now.h job.now.options.corner_margin points.old points.new
        front_nodes.old front_nodes.new front_lengths.old front_lengths.new result }
{
    match job.outline.coords.len() {
        0..=64 => loops_with_room::<32, 64>(job, points, front_nodes, front_lengths),
        65..=512 => loops_with_room::<256, 512>(job, points, front_nodes, front_lengths),
        _ => loops_with_room::<2048, 4096>(job, points, front_nodes, front_lengths),
    }
}
