// The picture of a job's answer.
ghost use Rattle.std.specs.Prelude.{false, ◌+◌, ◌/◌, ◌≤◌, length};
ghost use Rattle.std.specs.Float.{inf};
ghost use Rattle.state.specs.State.{quads_of, cut, no_counts};
ghost use Rattle.state.specs.Call.{left};
ghost use Rattle.state.specs.Lent.{held_in};
ghost use Rattle.state.specs.Refusals.{answered};
ghost use Rattle.state.specs.Sound.{Sound};
ghost use Rattle.input.specs.Job.{job_of};
ghost use Rattle.fan_search.specs.Values.{boxed};
ghost use Rattle.text.specs.Writing.{Fits, Same, Wrote};
ghost use Rattle.answer_text.specs.Fits.{SoundAnswer};
ghost use Rattle.shapes.specs.Shapes.{outline_text, worst as worst_of};
ghost use Rattle.captions.specs.Captions.{done_caption, refused_caption};
ghost use Rattle.picture.specs.Plates as pictures;
ghost use Rattle.picture.specs.Picture.{picture_room};

use captions::{put_done, put_refused};
use frames::{Frame, put_caption, put_closing, put_head};
use geometry::{FirstPoints, Outline};
use input::{Job, default_limit};
use shapes::{put_fronts, put_nodes, put_outline, put_tiles, worst};
use state::{Counts, Fronts, Lent, Refusal};
use text::Writer;

fn put_dots(w: &mut Writer, points: &[f64], laid: usize)
    requires { Fits w.old (pictures.dots_text points.now laid) }
    ensures put { Wrote w.old (pictures.dots_text points.now laid) w.new }
    ensures same { Same w.old w.new }
{
    let all = FirstPoints::all(points);
    let sampled = FirstPoints {
        pts: points,
        n: all.n.saturating_sub(laid),
    };
    put_nodes(w, b'n', &all);
    put_nodes(w, b's', &sampled);
}

fn put_shapes(w: &mut Writer, outline: &Outline, fronts: &Fronts, quads: &[u16], laid: usize)
    requires { Fits w.old (pictures.shapes_text outline.now.coords.now outline.now.loop_lengths.now fronts.now.points.now (quads_of (length quads.now / 4) quads.now) (cut fronts.now.lengths.now fronts.now.nodes.now) laid) }
    ensures put { Wrote w.old (pictures.shapes_text outline.now.coords.now outline.now.loop_lengths.now fronts.now.points.now (quads_of (length quads.now / 4) quads.now) (cut fronts.now.lengths.now fronts.now.nodes.now) laid) w.new }
    ensures same { Same w.old w.new }
{
    let limit = default_limit();
    put_tiles(w, limit, fronts.points, quads);
    put_outline(w, outline);
    put_fronts(w, fronts.points, fronts.nodes, fronts.lengths);
    put_dots(w, fronts.points, laid);
}

fn put_done_words(w: &mut Writer, points: &[f64], quads: &[u16], counts: Counts)
    requires { Fits w.old (done_caption counts (worst_of (inf false) points.now (quads_of (length quads.now / 4) quads.now))) }
    ensures put { Wrote w.old (done_caption counts (worst_of (inf false) points.now (quads_of (length quads.now / 4) quads.now))) w.new }
    ensures same { Same w.old w.new }
{
    let least = worst(points, quads);
    put_done(w, counts, least);
}

fn put_paved(
    w: &mut Writer,
    frame: Frame,
    outline: &Outline,
    fronts: &Fronts,
    quads: &[u16],
    counts: Counts,
)
    requires { Fits w.old (pictures.paved_text (boxed frame.bounds) frame.margin outline.now.coords.now outline.now.loop_lengths.now fronts.now.points.now (quads_of (length quads.now / 4) quads.now) (cut fronts.now.lengths.now fronts.now.nodes.now) counts) }
    ensures put { Wrote w.old (pictures.paved_text (boxed frame.bounds) frame.margin outline.now.coords.now outline.now.loop_lengths.now fronts.now.points.now (quads_of (length quads.now / 4) quads.now) (cut fronts.now.lengths.now fronts.now.nodes.now) counts) w.new }
    ensures same { Same w.old w.new }
{
    put_head(w, frame);
    put_shapes(w, outline, fronts, quads, counts.laid);
    put_caption(w, frame);
    put_done_words(w, fronts.points, quads, counts);
    put_closing(w);
}

fn put_outlined(w: &mut Writer, frame: Frame, outline: &Outline, n: u32)
    requires { Fits w.old (pictures.framed_text (boxed frame.bounds) frame.margin (outline_text outline.now.coords.now outline.now.loop_lengths.now) (refused_caption n)) }
    ensures put { Wrote w.old (pictures.framed_text (boxed frame.bounds) frame.margin (outline_text outline.now.coords.now outline.now.loop_lengths.now) (refused_caption n)) w.new }
    ensures same { Same w.old w.new }
{
    put_head(w, frame);
    put_outline(w, outline);
    put_caption(w, frame);
    put_refused(w, n);
    put_closing(w);
}

// The picture of a plate that is paved. `Few` is a clause of four functions and no fact of `Job`: only a job that a text gave has so few
// points.
fn put_plate(w: &mut Writer, job: &Job, lent: &Lent, counts: Counts)
    requires picture_room_in_bounds { w.old.at + picture_room ≤ length w.old.out.now }
    requires few { pictures.Few job.now.coords.now job.now.loop_lengths.now }
    requires sound { Sound (held_in lent.now counts) }
    ensures put { Wrote w.old (pictures.plated (job_of job.now) counts (held_in lent.now counts)) w.new }
    ensures upper_bound { w.new.at ≤ w.old.at + picture_room }
    ensures same { Same w.old w.new }
{
    let frame = Frame::around(job.coords, job.h);
    let outline = Outline {
        coords: job.coords,
        loop_lengths: job.loop_lengths,
    };
    let fronts = lent.fronts(counts);
    let quads = &lent.quads[..counts.quads * 4];
    put_paved(w, frame, &outline, &fronts, quads, counts);
}

// The picture of an outline that is refused.
fn put_refusal(w: &mut Writer, job: &Job, n: u32)
    requires picture_room_in_bounds { w.old.at + picture_room ≤ length w.old.out.now }
    requires few { pictures.Few job.now.coords.now job.now.loop_lengths.now }
    ensures put { Wrote w.old (pictures.outlined (job_of job.now) n) w.new }
    ensures upper_bound { w.new.at ≤ w.old.at + picture_room }
    ensures same { Same w.old w.new }
{
    let frame = Frame::around(job.coords, job.h);
    let outline = Outline {
        coords: job.coords,
        loop_lengths: job.loop_lengths,
    };
    put_outlined(w, frame, &outline, n);
}

pub fn put_answer(w: &mut Writer, job: &Job, answer: Result<Counts, Refusal>, lent: &Lent)
    requires picture_room_in_bounds { w.old.at + picture_room ≤ length w.old.out.now }
    requires few { pictures.Few job.now.coords.now job.now.loop_lengths.now }
    requires sound_answer { SoundAnswer (left (answered answer) (held_in lent.now no_counts)) }
    ensures put { Wrote w.old (pictures.answer_picture (job_of job.now) (left (answered answer) (held_in lent.now no_counts))) w.new }
    ensures upper_bound { w.new.at ≤ w.old.at + picture_room }
    ensures same { Same w.old w.new }
{
    match answer {
        Ok(counts) => put_plate(w, job, lent, counts),
        Err(refusal) => put_refusal(w, job, refusal.number()),
    }
}
