// The line of words under a plate, and a picture of words alone.
ghost use Rattle.std.specs.Prelude.{◌≡◌};
ghost use Rattle.text.specs.Writing.{Fits, Same, Wrote};
ghost use Rattle.captions.specs.Captions as captions;

use frames::{put_closing, put_plain_caption, put_plain_head};
use shapes::put_across;
use state::Counts;
use text::Writer;

fn put_count(w: &mut Writer, name: &[u8], n: usize)
    requires { Fits w.old (captions.count_text name.now n) }
    ensures put { Wrote w.old (captions.count_text name.now n) w.new }
    ensures same { Same w.old w.new }
{
    w.bytes(name);
    // as: Rust has no From between usize and u64
    w.decimal(n as u64);
}

fn put_sizes(w: &mut Writer, c: Counts)
    requires { Fits w.old (captions.sizes_text c) }
    ensures put { Wrote w.old (captions.sizes_text c) w.new }
    ensures same { Same w.old w.new }
{
    put_count(w, b"points ", c.points);
    put_count(w, b", quads ", c.quads);
    put_count(w, b", fronts ", c.fronts);
    put_count(w, b", row_quads ", c.row_quads);
}

fn put_steps(w: &mut Writer, c: Counts)
    requires { Fits w.old (captions.steps_text c) }
    ensures put { Wrote w.old (captions.steps_text c) w.new }
    ensures same { Same w.old w.new }
{
    put_count(w, b", core_quads ", c.core_quads);
    put_count(w, b", row_rounds ", c.row_rounds);
    put_count(w, b", passes ", c.passes_begun);
    put_count(w, b", laid ", c.laid);
}

fn put_least(w: &mut Writer, least: f64)
    requires { Fits w.old (captions.least_text least) }
    ensures put { Wrote w.old (captions.least_text least) w.new }
    ensures same { Same w.old w.new }
{
    w.bytes(b", least corner ");
    put_across(w, least);
}

fn put_corner(w: &mut Writer, quads: usize, least: f64)
    requires { Fits w.old (captions.corner_text quads least) }
    ensures put { Wrote w.old (captions.corner_text quads least) w.new }
    ensures same { Same w.old w.new }
{
    if quads != 0 {
        put_least(w, least);
    }
}

// The words of a plate that is paved.
pub fn put_done(w: &mut Writer, c: Counts, least: f64)
    requires { Fits w.old (captions.done_caption c least) }
    ensures put { Wrote w.old (captions.done_caption c least) w.new }
    ensures same { Same w.old w.new }
{
    let quads = c.quads;
    put_sizes(w, c);
    put_steps(w, c);
    put_corner(w, quads, least);
}

// What a refusal's number says; nothing where a job's text cannot give it.
fn sentence(n: u32) -> &'static [u8]
    ensures { result.now ≡ captions.sentence n }
{
    match n {
        1 => b"there are more than 16 loops or 2,048 points.",
        4 => b"the outer loop has fewer than three points.",
        6 => b"the outline has no area left; is the outer loop given counter-clockwise?",
        7 => b"a loop has fewer than three points, close ones counted as one.",
        10 => b"the outline needs more than 2,048 nodes at this size.",
        11 => b"the text is not that of a job.",
        21 => b"the plate needs more than 4,096 points or tiles at this size.",
        _ => b"",
    }
}

// The words of a refusal.
pub fn put_refused(w: &mut Writer, n: u32)
    requires { Fits w.old (captions.refused_caption n) }
    ensures put { Wrote w.old (captions.refused_caption n) w.new }
    ensures same { Same w.old w.new }
{
    w.bytes(b"refused ");
    w.decimal(u64::from(n));
    w.bytes(b": ");
    w.bytes(sentence(n));
}

// A picture of words alone.
pub fn put_words(w: &mut Writer, n: u32)
    requires { Fits w.old (captions.words_text n) }
    ensures put { Wrote w.old (captions.words_text n) w.new }
    ensures same { Same w.old w.new }
{
    put_plain_head(w);
    put_plain_caption(w);
    put_refused(w, n);
    put_closing(w);
}
