// The head of a picture, where its words begin, and its end. Each piece of the style has a function and a
// definition of its own: one function over the text would have to be given both.
ghost use Rattle.text.specs.Writing.{Fits, Same, Wrote};
ghost use Rattle.fan_search.specs.Values.{boxed};
ghost use Rattle.frames.specs.Views as views;
ghost use Rattle.frames.specs.Views.{plain_head, plain_caption};

use crate::boxes::Frame;
use fan_search::Box;
use shapes::{put_across, put_up};
use text::Writer;

fn put_view(w: &mut Writer, frame: Frame)
    requires { Fits w.old (views.view_text (boxed frame.bounds) frame.margin) }
    ensures put { Wrote w.old (views.view_text (boxed frame.bounds) frame.margin) w.new }
    ensures same { Same w.old w.new }
{
    let Frame {
        bounds: b,
        margin: m,
    } = frame;
    put_across(w, b.left - m);
    w.byte(b' ');
    put_up(w, b.high + m);
    w.byte(b' ');
    put_across(w, b.right - b.left + m + m);
    w.byte(b' ');
    put_across(w, b.high - b.low + m + m + m);
}

fn put_size(w: &mut Writer, frame: Frame)
    requires { Fits w.old (views.size_text (boxed frame.bounds) frame.margin) }
    ensures put { Wrote w.old (views.size_text (boxed frame.bounds) frame.margin) w.new }
    ensures same { Same w.old w.new }
{
    let Frame {
        bounds: b,
        margin: m,
    } = frame;
    put_across(w, (b.right - b.left + m + m) / 72.0);
}

fn put_opening(w: &mut Writer)
    requires { Fits w.old views.opening }
    ensures put { Wrote w.old views.opening w.new }
    ensures same { Same w.old w.new }
{
    w.bytes(b"<svg xmlns=\"http://www.w3.org/2000/svg\" viewBox=\"");
}

fn put_paper(w: &mut Writer)
    requires { Fits w.old views.paper }
    ensures put { Wrote w.old views.paper w.new }
    ensures same { Same w.old w.new }
{
    w.bytes(
        b"\">\n<style>svg{background:#fff;font-family:sans-serif}text{text-anchor:middle}path{stroke-linejoin:round;stroke-linecap:round;stroke:#fff;stroke-width:.05em}\n",
    );
}

fn put_darker(w: &mut Writer)
    requires { Fits w.old views.darker }
    ensures put { Wrote w.old views.darker w.new }
    ensures same { Same w.old w.new }
{
    w.bytes(b".A{fill:#00224e}.B{fill:#123570}.C{fill:#3b496c}.D{fill:#575d6d}.E{fill:#707173}");
}

fn put_lighter(w: &mut Writer)
    requires { Fits w.old views.lighter }
    ensures put { Wrote w.old views.lighter w.new }
    ensures same { Same w.old w.new }
{
    w.bytes(b".F{fill:#8a8678}.G{fill:#a59c74}.H{fill:#c3b369}.I{fill:#e1cc55}.J{fill:#fee838}\n");
}

fn put_strokes(w: &mut Writer)
    requires { Fits w.old views.strokes }
    ensures put { Wrote w.old views.strokes w.new }
    ensures same { Same w.old w.new }
{
    w.bytes(
        b".o{fill:none;stroke:#000;stroke-width:.1em}.f{fill:none;stroke:#d55e00;stroke-width:.3em}.n{stroke:#000;stroke-width:.2em}.s{stroke:#0072b2;stroke-width:.4em}</style>\n",
    );
}

fn put_style(w: &mut Writer)
    requires { Fits w.old views.style }
    ensures put { Wrote w.old views.style w.new }
    ensures same { Same w.old w.new }
{
    put_paper(w);
    put_darker(w);
    put_lighter(w);
    put_strokes(w);
}

pub fn put_head(w: &mut Writer, frame: Frame)
    requires { Fits w.old (views.head_text (views.view_text (boxed frame.bounds) frame.margin) (views.size_text (boxed frame.bounds) frame.margin)) }
    ensures put { Wrote w.old (views.head_text (views.view_text (boxed frame.bounds) frame.margin) (views.size_text (boxed frame.bounds) frame.margin)) w.new }
    ensures same { Same w.old w.new }
{
    put_opening(w);
    put_view(w, frame);
    w.bytes(b"\" font-size=\"");
    put_size(w, frame);
    put_style(w);
}

fn put_middle(w: &mut Writer, b: Box)
    requires { Fits w.old (views.middle_text (boxed b)) }
    ensures put { Wrote w.old (views.middle_text (boxed b)) w.new }
    ensures same { Same w.old w.new }
{
    put_across(w, b.left + 0.5 * (b.right - b.left));
}

fn put_under(w: &mut Writer, frame: Frame)
    requires { Fits w.old (views.under_text (boxed frame.bounds) frame.margin) }
    ensures put { Wrote w.old (views.under_text (boxed frame.bounds) frame.margin) w.new }
    ensures same { Same w.old w.new }
{
    let Frame {
        bounds: b,
        margin: m,
    } = frame;
    put_up(w, b.low - m - 0.5 * m);
}

pub fn put_caption(w: &mut Writer, frame: Frame)
    requires { Fits w.old (views.caption_text (views.middle_text (boxed frame.bounds)) (views.under_text (boxed frame.bounds) frame.margin)) }
    ensures put { Wrote w.old (views.caption_text (views.middle_text (boxed frame.bounds)) (views.under_text (boxed frame.bounds) frame.margin)) w.new }
    ensures same { Same w.old w.new }
{
    w.bytes(b"<text x=\"");
    put_middle(w, frame.bounds);
    w.bytes(b"\" y=\"");
    put_under(w, frame);
    w.bytes(b"\">");
}

pub fn put_closing(w: &mut Writer)
    requires { Fits w.old views.closing }
    ensures put { Wrote w.old views.closing w.new }
    ensures same { Same w.old w.new }
{
    w.bytes(b"</text>\n</svg>\n");
}

// ---- around words alone

pub fn put_plain_head(w: &mut Writer)
    requires { Fits w.old plain_head }
    ensures put { Wrote w.old plain_head w.new }
    ensures same { Same w.old w.new }
{
    put_opening(w);
    w.bytes(b"0 0 720 40");
    w.bytes(b"\" font-size=\"");
    w.bytes(b"10");
    put_style(w);
}

pub fn put_plain_caption(w: &mut Writer)
    requires { Fits w.old plain_caption }
    ensures put { Wrote w.old plain_caption w.new }
    ensures same { Same w.old w.new }
{
    w.bytes(b"<text x=\"360\" y=\"25\">");
}
