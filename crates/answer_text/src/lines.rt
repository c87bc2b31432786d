// Lines of an answer: numbers behind a word, points, quads and fronts.
ghost use Rattle.std.specs.Prelude.{[], ◌∷◌, map, ◌/◌, ◌≤◌, length};
ghost use Rattle.geometry.specs.Domain.{sum_of};
ghost use Rattle.state.specs.State.{quad_nodes, quads_of, cut};
ghost use Rattle.text.specs.Decimal.{decimal_text};
ghost use Rattle.text.specs.Hex.{bits_text};
ghost use Rattle.text.specs.Writing.{Fits, Same, Wrote};
ghost use Rattle.answer_text.specs.AnswerText.{numbers_text, line_text, lines_text, point_text, points_text, tab};

use text::{Writer, bits_of};

// A tab and a number.
pub fn put_number(w: &mut Writer, n: u64)
    requires { Fits w.old (tab ∷ decimal_text n) }
    ensures put { Wrote w.old (tab ∷ decimal_text n) w.new }
    ensures same { Same w.old w.new }
{
    w.byte(b'\t');
    w.decimal(n);
}

// A tab and the bits of a coordinate.
fn put_bits(w: &mut Writer, x: f64)
    requires { Fits w.old (tab ∷ bits_text x) }
    ensures put { Wrote w.old (tab ∷ bits_text x) w.new }
    ensures same { Same w.old w.new }
{
    w.byte(b'\t');
    w.hex(bits_of(x));
}

fn put_nodes(w: &mut Writer, nodes: &[u16])
    requires { Fits w.old (numbers_text nodes.now) }
    ensures put { Wrote w.old (numbers_text nodes.now) w.new }
    ensures same { Same w.old w.new }
{
    for node in nodes {
        put_number(w, u64::from(*node));
    }
}

// The line of a quad or a front.
fn put_line(w: &mut Writer, letter: u8, nodes: &[u16])
    requires { Fits w.old (line_text (letter ∷ []) nodes.now) }
    ensures put { Wrote w.old (line_text (letter ∷ []) nodes.now) w.new }
    ensures same { Same w.old w.new }
{
    w.byte(letter);
    put_nodes(w, nodes);
    w.byte(b'\n');
}

fn put_point(w: &mut Writer, x: f64, y: f64)
    requires { Fits w.old (point_text x y) }
    ensures put { Wrote w.old (point_text x y) w.new }
    ensures same { Same w.old w.new }
{
    w.byte(b'p');
    put_bits(w, x);
    put_bits(w, y);
    w.byte(b'\n');
}

pub fn put_points(w: &mut Writer, points: &[f64])
    requires { Fits w.old (points_text points.now) }
    ensures put { Wrote w.old (points_text points.now) w.new }
    ensures same { Same w.old w.new }
{
    for point in points.chunks_exact(2) {
        put_point(w, point[0], point[1]);
    }
}

pub fn put_quads(w: &mut Writer, quads: &[u16])
    requires { Fits w.old (lines_text (113 ∷ []) (map quad_nodes (quads_of (length quads.now / 4) quads.now))) }
    ensures put { Wrote w.old (lines_text (113 ∷ []) (map quad_nodes (quads_of (length quads.now / 4) quads.now))) w.new }
    ensures same { Same w.old w.new }
{
    for quad in quads.chunks_exact(4) {
        put_line(w, b'q', quad);
    }
}

// A line for each of the lists of nodes that stand one after the other, of these lengths. Two slices and no value that has their
// fact: those of state and pair_counts ask something of the nodes too, and one more type for one function is no plainer. `scan` would keep
// the sum `start` inside a closure.
pub fn put_rings(w: &mut Writer, letter: u8, nodes: &[u16], lengths: &[u16])
    requires room { Fits w.old (lines_text (letter ∷ []) (cut lengths.now nodes.now)) }
    requires lengths_in_bounds { sum_of lengths.now ≤ length nodes.now }
    ensures put { Wrote w.old (lines_text (letter ∷ []) (cut lengths.now nodes.now)) w.new }
    ensures same { Same w.old w.new }
{
    let mut start = 0usize;
    for count in lengths {
        let end = start + usize::from(*count);
        put_line(w, letter, &nodes[start..end]);
        start = end;
    }
}
