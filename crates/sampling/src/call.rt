// The call `sample`.
ghost use Rattle.std.specs.Prelude.{◌≡◌, IfErr, IfOk};
ghost use Rattle.state.specs.State.{no_counts};
ghost use Rattle.state.specs.Call.{job_left, left};
ghost use Rattle.state.specs.Lent.{Same, held_in, lengths_in};
ghost use Rattle.state.specs.Outcome.{gives, refused};
ghost use Rattle.state.specs.Refusals.{answered, number};
ghost use Rattle.input.specs.Job.{accepted_of, job_of};
ghost use Rattle.input.specs.Shaped.{Shaped};
ghost use Rattle.sampling.specs.Sample as samples;

use crate::all_loops::sample_loops;
use input::{Accepted, Job};
use state::{Counts, Lent, Refusal, fill_from};

// The sampled loops of a job that passed its test with these buffers, whatever the buffers held: each place is written once, zeros behind
// the loops. A refusal, number 7 or 10, says nothing of what the buffers hold.
pub fn put_loops(job: &Accepted, lent: &mut Lent) -> Result<Counts, Refusal>
    requires { Shaped (accepted_of job.now) (lengths_in lent.old) }
    ensures same { Same lent.old lent.new }
    ensures given { IfOk result (λ counts. left (gives counts) (held_in lent.new no_counts) ≡ job_left (lengths_in lent.old) (samples.sampled (accepted_of job.now))) }
    ensures refused { IfErr result (λ refusal. samples.sampled (accepted_of job.now) ≡ refused (number refusal)) }
{
    match sample_loops(job, lent.points, lent.front_nodes, lent.front_lengths) {
        Err(refusal) => Err(refusal),
        Ok(nodes) => {
            let fronts = job.outline.loop_lengths.len();
            fill_from(lent.points, nodes * 2, 0.0);
            lent.quads.fill(0);
            fill_from(lent.front_nodes, nodes, 0);
            fill_from(lent.front_lengths, fronts, 0);
            Ok(Counts {
                points: nodes,
                fronts,
                ..Counts::default()
            })
        }
    }
}

// The same, and a refusal leaves zeros.
pub fn sample_accepted(job: &Accepted, lent: &mut Lent) -> Result<Counts, Refusal>
    requires { Shaped (accepted_of job.now) (lengths_in lent.old) }
    ensures same { Same lent.old lent.new }
    ensures left { left (answered result) (held_in lent.new no_counts) ≡ job_left (lengths_in lent.old) (samples.sampled (accepted_of job.now)) }
{
    match put_loops(job, lent) {
        Err(refusal) => {
            lent.clear();
            Err(refusal)
        }
        Ok(counts) => Ok(counts),
    }
}

// The call: numbers 1 to 6 for the job, and then its loops.
pub fn sample(job: &Job, lent: &mut Lent) -> Result<Counts, Refusal>
    ensures same { Same lent.old lent.new }
    ensures left { left (answered result) (held_in lent.new no_counts) ≡ samples.sample_call (job_of job.now) (lengths_in lent.old) }
{
    match job.check(lent) {
        Err(refusal) => {
            lent.clear();
            Err(refusal)
        }
        Ok(accepted) => sample_accepted(&accepted, lent),
    }
}
