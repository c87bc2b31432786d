// From a job's text to its picture: what the program `draw` does between its reading and its writing.
ghost use Rattle.std.specs.Prelude.{◌≡◌, ◌+◌, ◌≤◌, length};
ghost use Rattle.input.specs.Job.{job_of};
ghost use Rattle.text.specs.Putting.{Put};
ghost use Rattle.text.specs.Writing.{Same, Wrote};
ghost use Rattle.picture.specs.Plates.{Few};
ghost use Rattle.picture.specs.Picture.{draw_call, draw_text, drawn_in, job_picture, picture_room};

use crate::plates::put_answer;
use captions::put_words;
use input::Job;
use job_text::TextJob;
use state::{Arrays, Refusal};
use text::{Writer, put_zeros};

// The picture of a job.
fn put_job(w: &mut Writer, job: &Job)
    requires picture_room_in_bounds { w.old.at + picture_room ≤ length w.old.out.now }
    requires few { Few job.now.coords.now job.now.loop_lengths.now }
    ensures put { Wrote w.old (job_picture (job_of job.now)) w.new }
    ensures upper_bound { w.new.at ≤ w.old.at + picture_room }
    ensures same { Same w.old w.new }
{
    if job.coords.len() == 0 {
        put_words(w, Refusal::OuterLoop.number());
        return;
    }
    let mut arrays = Arrays::zeros();
    let mut lent = arrays.lend();
    let answer = job::job(job, &mut lent);
    put_answer(w, job, answer, &lent);
}

fn put_drawing(w: &mut Writer, input: &[u8])
    requires { w.old.at + picture_room ≤ length w.old.out.now }
    ensures put { Wrote w.old (draw_text input.now) w.new }
    ensures upper_bound { w.new.at ≤ w.old.at + picture_room }
    ensures same { Same w.old w.new }
{
    let mut read = TextJob::none();
    match read.read(input) {
        Ok(()) => put_job(w, &read.job()),
        Err(error) => put_words(w, error.number()),
    }
}

// A buffer of fewer than 1,638,400 bytes is left alone, and the result is 0; no picture is that long. Otherwise the picture,
// zeros behind it, and the picture's length, whatever the buffer held.
// `pave_text`, `draw_text` and `recheck` differ in their buffer's length and in what writes it; C's names for the first and last need each.
pub fn draw_text(input: &[u8], out: &mut [u8]) -> usize
    ensures { drawn_in result out.new ≡ draw_call input.now out.old }
{
    if out.len() < 1638400 {
        return 0;
    }
    let mut w = Writer { out, at: 0 };
    put_drawing(&mut w, input);
    let end = w.at;
    put_zeros(w.out, end);
    end
}
