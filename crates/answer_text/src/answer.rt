// The text of a state, of a refusal, and of either.
ghost use Rattle.std.specs.Prelude.{[], ◌∷◌, ◌+◌, ◌≤◌, length};
ghost use Rattle.state.specs.State.{no_counts, reading};
ghost use Rattle.state.specs.Call.{left};
ghost use Rattle.state.specs.Lent.{held_of};
ghost use Rattle.state.specs.Refusals.{told};
ghost use Rattle.state.specs.Sound.{Sound};
ghost use Rattle.text.specs.Writing.{Fits, Same, Wrote};
ghost use Rattle.answer_text.specs.AnswerText.{line_text, count_numbers, state_text, refused_text, answer_text};
ghost use Rattle.answer_text.specs.Fits.{text_limit, SoundAnswer};

use crate::lines::{put_number, put_points, put_quads, put_rings};
use state::{Buffers, Counts, fit_nodes};
use text::Writer;

fn put_counts(w: &mut Writer, counts: Counts)
    requires { Fits w.old (line_text (100 ∷ 111 ∷ 110 ∷ 101 ∷ []) (count_numbers counts)) }
    ensures put { Wrote w.old (line_text (100 ∷ 111 ∷ 110 ∷ 101 ∷ []) (count_numbers counts)) w.new }
    ensures same { Same w.old w.new }
{
    w.bytes(b"done");
    for count in [
        counts.points,
        counts.quads,
        counts.fronts,
        counts.row_quads,
        counts.core_quads,
        counts.row_rounds,
        counts.passes_begun,
        counts.laid,
    ] {
        // as: Rust has no From between usize and u64
        put_number(w, count as u64);
    }
    w.byte(b'\n');
}

// The text of a state.
pub fn put_held(w: &mut Writer, held: &Buffers, counts: Counts)
    requires text_limit_in_bounds { w.old.at + text_limit ≤ length w.old.out.now }
    requires sound { Sound (held_of held.now counts) }
    ensures put { Wrote w.old (state_text (reading (held_of held.now counts))) w.new }
    ensures upper_bound { w.new.at ≤ w.old.at + text_limit }
    ensures same { Same w.old w.new }
{
    let quads = fit_nodes(held.quads);
    let front_nodes = fit_nodes(held.front_nodes);
    put_counts(w, counts);
    put_points(w, &held.points[..counts.points * 2]);
    put_quads(w, &quads[..counts.quads * 4]);
    put_rings(w, b'f', front_nodes, &held.front_lengths[..counts.fronts]);
}

pub fn put_refused(w: &mut Writer, number: u32)
    requires { w.old.at + text_limit ≤ length w.old.out.now }
    ensures put { Wrote w.old (refused_text number) w.new }
    ensures upper_bound { w.new.at ≤ w.old.at + text_limit }
    ensures same { Same w.old w.new }
{
    w.bytes(b"refused");
    put_number(w, u64::from(number));
    w.byte(b'\n');
}

// The text of an answer, whatever number a refusal has.
pub fn put_answer(w: &mut Writer, answer: Result<Counts, u32>, held: &Buffers)
    requires text_limit_in_bounds { w.old.at + text_limit ≤ length w.old.out.now }
    requires sound_answer { SoundAnswer (left (told answer) (held_of held.now no_counts)) }
    ensures put { Wrote w.old (answer_text (left (told answer) (held_of held.now no_counts))) w.new }
    ensures upper_bound { w.new.at ≤ w.old.at + text_limit }
    ensures same { Same w.old w.new }
{
    match answer {
        Ok(counts) => put_held(w, held, counts),
        Err(number) => put_refused(w, number),
    }
}
