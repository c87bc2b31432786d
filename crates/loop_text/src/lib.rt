// The text of a job in, the `s` lines of its sampled loops out: what the program `loops` does between its reading and its writing.
#![tactic(auto)]

ghost use Rattle.std.specs.Prelude.{◌+◌, ◌≤◌, length};
ghost use Rattle.geometry.specs.Domain.{sum_of};
ghost use Rattle.state.specs.Limits.{front_limit, front_node_limit};
ghost use Rattle.state.specs.State.{cut};
ghost use Rattle.state.specs.Call.{lent};
ghost use Rattle.input.specs.Job as inputs;
ghost use Rattle.sampling.specs.Sample.{sample_call};
ghost use Rattle.text.specs.Putting.{Put};
ghost use Rattle.text.specs.Writing.{Same, Wrote};
ghost use Rattle.answer_text.specs.Fits.{text_limit};
ghost use Rattle.tile_text.specs.TileList.{loops_text};
ghost use Rattle.loop_text.specs.SampledText.{loop_lines, sampled_text};

use answer_text::{put_refused, put_rings};
use input::Job;
use job_text::TextJob;
use state::Lent;
use text::Writer;

// A line for each loop, of two slices: of a slice the check knows that its numbers fit, of a field it does not.
fn put_lines(w: &mut Writer, nodes: &[u16], lengths: &[u16])
    requires { (w.old.at + text_limit ≤ length w.old.out.now) × (length lengths.now ≤ front_limit) × (sum_of lengths.now ≤ front_node_limit) × (sum_of lengths.now ≤ length nodes.now) }
    ensures put { Wrote w.old (loops_text (cut lengths.now nodes.now)) w.new }
    ensures upper_bound { w.new.at ≤ w.old.at + text_limit }
    ensures same { Same w.old w.new }
{
    put_rings(w, b's', nodes, lengths);
}

// The sampled loops of a job.
fn put_sampled(w: &mut Writer, job: &Job)
    requires { w.old.at + text_limit ≤ length w.old.out.now }
    ensures put { Wrote w.old (loop_lines (sample_call (inputs.job_of job.now) lent)) w.new }
    ensures upper_bound { w.new.at ≤ w.old.at + text_limit }
    ensures same { Same w.old w.new }
{
    // Apart, and not as `Arrays`: nothing here reads the quads, and so the compiler leaves them out.
    let mut points = [0.0; 8192];
    let mut quads = [0; 16384];
    let mut front_nodes = [0; 2048];
    let mut front_lengths = [0; 16];
    let mut lent = Lent {
        points: &mut points,
        quads: &mut quads,
        front_nodes: &mut front_nodes,
        front_lengths: &mut front_lengths,
    };
    match sampling::sample(job, &mut lent) {
        Ok(counts) => {
            let loops = lent.fronts(counts);
            put_lines(w, loops.nodes, loops.lengths);
        }
        Err(refusal) => put_refused(w, refusal.number()),
    }
}

fn put_text(w: &mut Writer, input: &[u8])
    requires { w.old.at + text_limit ≤ length w.old.out.now }
    ensures put { Wrote w.old (sampled_text input.now) w.new }
    ensures upper_bound { w.new.at ≤ w.old.at + text_limit }
    ensures same { Same w.old w.new }
{
    let mut read = TextJob::none();
    match read.read(input) {
        Ok(()) => put_sampled(w, &read.job()),
        Err(error) => put_refused(w, error.number()),
    }
}

// The answer's text from the first place on, and its length.
pub fn put_loops(out: &mut [u8], input: &[u8]) -> usize
    requires { text_limit ≤ length out.old }
    ensures put { Put out.old 0 (sampled_text input.now) out.new result }
    ensures upper_bound { result ≤ text_limit }
{
    let mut w = Writer { out, at: 0 };
    put_text(&mut w, input);
    w.at
}
