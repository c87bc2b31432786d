// The numbers 1 to 6, which a job's input gives.
ghost use Rattle.std.specs.Prelude.{◌≡◌, IfOk};
ghost use Rattle.state.specs.Call.{lengths_of};
ghost use Rattle.state.specs.Lent.{lengths_in};
ghost use Rattle.state.specs.Refusals.{refusal_of};
ghost use Rattle.input.specs.Job as inputs;

use crate::{Accepted, Job, Options};
use geometry::Outline;
use state::{Lent, Refusal, outside, sum_of, wrong_coordinate};

// The lengths of the four lent buffers come one by one up to `check_with`, which who has no buffers may ask; here `check` alone does, from
// its `Lent`. A struct of the four would be made there for the one call, and taken apart here.
fn wrong_lengths(points: usize, quads: usize, front_nodes: usize, front_lengths: usize) -> bool
    ensures { result ≡ inputs.wrong_lengths (lengths_of points quads front_nodes front_lengths) }
{
    if points != 8192 {
        return true;
    }
    if quads != 16384 {
        return true;
    }
    if front_nodes != 2048 {
        return true;
    }
    front_lengths != 16
}

// Number 1.
fn wrong_shape(
    job: &Job,
    points: usize,
    quads: usize,
    front_nodes: usize,
    front_lengths: usize,
) -> bool
    ensures { result ≡ inputs.wrong_shape (inputs.job_of job.now) (lengths_of points quads front_nodes front_lengths) }
{
    if wrong_lengths(points, quads, front_nodes, front_lengths) {
        return true;
    }
    let loops = job.loop_lengths.len();
    if loops == 0 {
        return true;
    }
    if 16 < loops {
        return true;
    }
    let numbers = job.coords.len();
    if numbers % 2 == 1 {
        return true;
    }
    let pairs = numbers / 2;
    if sum_of(job.loop_lengths) != pairs {
        return true;
    }
    2048 < pairs
}

fn wrong_size(h: f64) -> bool
    ensures { result ≡ inputs.wrong_size h }
{
    if float::is_finite(h) {
        return h <= 0.0;
    }
    true
}

fn wrong_options(h: f64, options: Options) -> bool
    ensures { result ≡ inputs.wrong_options h options }
{
    if outside(0.001, 1000000.0, h) {
        return true;
    }
    if outside(0.0, 100.0, options.corner_margin) {
        return true;
    }
    if outside(0.0, 100.0, options.front_gap) {
        return true;
    }
    if outside(0.0, 1.0, options.min_edge_fraction) {
        return true;
    }
    if 64 < options.max_row_rounds {
        return true;
    }
    if options.seam {
        return true;
    }
    outside(0.02, 0.9, options.corner_limit)
}

impl<'a> Job<'a> {
    // The test of a job and of the lengths of the buffers that it is to be made in: the job, as the calls go on with it.
    pub fn check_with(
        &self,
        points: usize,
        quads: usize,
        front_nodes: usize,
        front_lengths: usize,
    ) -> Result<Accepted<'a>, Refusal>
        ensures value { refusal_of result ≡ inputs.input_number (inputs.job_of self.now) (lengths_of points quads front_nodes front_lengths) }
        ensures same { IfOk result (λ a. inputs.accepted_of a ≡ inputs.job_of self.now) }
    {
        let Job {
            coords,
            loop_lengths,
            h,
            options,
        } = *self;
        if wrong_shape(self, points, quads, front_nodes, front_lengths) {
            return Err(Refusal::Shape);
        }
        if wrong_size(h) {
            return Err(Refusal::Size);
        }
        if wrong_options(h, options) {
            return Err(Refusal::Options);
        }
        if loop_lengths[0] < 3 {
            return Err(Refusal::OuterLoop);
        }
        if wrong_coordinate(1000000.0, coords) {
            return Err(Refusal::Coordinate);
        }
        let outline = Outline {
            coords,
            loop_lengths,
        };
        if outline.area() <= 0.0 {
            return Err(Refusal::Area);
        }
        Ok(Accepted {
            outline,
            h,
            options,
        })
    }

    // The same of lent buffers.
    pub fn check(&self, lent: &Lent) -> Result<Accepted<'a>, Refusal>
        ensures value { refusal_of result ≡ inputs.input_number (inputs.job_of self.now) (lengths_in lent.now) }
        ensures same { IfOk result (λ a. inputs.accepted_of a ≡ inputs.job_of self.now) }
    {
        self.check_with(
            lent.points.len(),
            lent.quads.len(),
            lent.front_nodes.len(),
            lent.front_lengths.len(),
        )
    }
}
