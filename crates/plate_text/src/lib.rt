// The text of a job in, the text of its answer out: what the program `pave` does between its reading and its writing.
#![tactic(auto)]

ghost use Rattle.std.specs.Prelude.{◌≡◌, ◌+◌, ◌≤◌, length};
ghost use Rattle.state.specs.Call.{lent};
ghost use Rattle.input.specs.Job as inputs;
ghost use Rattle.rules.specs.Calls.{job_call};
ghost use Rattle.text.specs.Writing.{Same, Wrote};
ghost use Rattle.answer_text.specs.AnswerText.{answer_text};
ghost use Rattle.answer_text.specs.Fits.{text_limit};
ghost use Rattle.plate_text.specs.PaveText.{pave_text, text_call, texted};

use answer_text::{put_answer, put_refused};
use input::Job;
use job_text::TextJob;
use state::{Arrays, numbered};
use text::{Writer, put_zeros};

// The answer of a job, as text.
fn put_job(w: &mut Writer, job: &Job)
    requires { w.old.at + text_limit ≤ length w.old.out.now }
    ensures put { Wrote w.old (answer_text (job_call (inputs.job_of job.now) lent)) w.new }
    ensures upper_bound { w.new.at ≤ w.old.at + text_limit }
    ensures same { Same w.old w.new }
{
    let mut arrays = Arrays::zeros();
    let mut lent = arrays.lend();
    let answer = job::job(job, &mut lent);
    put_answer(w, numbered(answer), &lent.read());
}

fn put_paved(w: &mut Writer, input: &[u8])
    requires { w.old.at + text_limit ≤ length w.old.out.now }
    ensures put { Wrote w.old (pave_text input.now) w.new }
    ensures upper_bound { w.new.at ≤ w.old.at + text_limit }
    ensures same { Same w.old w.new }
{
    let mut read = TextJob::none();
    match read.read(input) {
        Ok(()) => put_job(w, &read.job()),
        Err(error) => put_refused(w, error.number()),
    }
}

// A buffer of fewer than 270,336 bytes is left alone, and the result is 0; no answer is that long. Otherwise the answer's text,
// zeros behind it, and the text's length, whatever the buffer held.
// `pave_text`, `draw_text` and `recheck` differ in their buffer's length and in what writes it; C's names for the first and last need each.
pub fn pave_text(input: &[u8], out: &mut [u8]) -> usize
    ensures { texted result out.new ≡ text_call input.now out.old }
{
    if out.len() < 270336 {
        return 0;
    }
    let mut w = Writer { out, at: 0 };
    put_paved(&mut w, input);
    let end = w.at;
    put_zeros(w.out, end);
    end
}
