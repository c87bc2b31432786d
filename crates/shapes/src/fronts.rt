// The outline's loops, remaining fronts, and nodes.
ghost use Rattle.std.specs.Prelude.{◌≤◌, length};
ghost use Rattle.geometry.specs.Domain.{sum_of};
ghost use Rattle.state.specs.State.{cut, numbered};
ghost use Rattle.text.specs.Writing.{Fits, Same, Wrote};
ghost use Rattle.shapes.specs.Shapes.{dot_text, dots_text, fronts_text, loops_text, nodes_text, outline_text};

use crate::places::put_place;
use crate::rings::{put_open, put_ring, put_shape};
use geometry::{FirstPoints, Outline, Point, Ring, point_at};
use text::Writer;

fn put_loops(w: &mut Writer, outline: &Outline)
    requires { Fits w.old (loops_text outline.now.coords.now 0 outline.now.loop_lengths.now) }
    ensures put { Wrote w.old (loops_text outline.now.coords.now 0 outline.now.loop_lengths.now) w.new }
    ensures same { Same w.old w.new }
{
    let mut first = 0;
    // a running place: `scan` would keep it inside a closure
    for n in outline.loop_lengths {
        let n = usize::from(*n);
        put_ring(w, (first..first + n).map(|i| point_at(outline.coords, i)));
        first += n;
    }
}

pub fn put_outline(w: &mut Writer, outline: &Outline)
    requires { Fits w.old (outline_text outline.now.coords.now outline.now.loop_lengths.now) }
    ensures put { Wrote w.old (outline_text outline.now.coords.now outline.now.loop_lengths.now) w.new }
    ensures same { Same w.old w.new }
{
    put_open(w, b'o');
    put_loops(w, outline);
    w.bytes(b"\"/>\n");
}

// Of three lists: `Fronts` would ask that each node has a point, and a front is drawn without that too.
pub fn put_fronts(w: &mut Writer, points: &[f64], nodes: &[u16], lengths: &[u16])
    requires room { Fits w.old (fronts_text points.now (cut lengths.now nodes.now)) }
    requires lengths_in_bounds { sum_of lengths.now ≤ length nodes.now }
    ensures put { Wrote w.old (fronts_text points.now (cut lengths.now nodes.now)) w.new }
    ensures same { Same w.old w.new }
{
    let mut left = nodes;
    for n in lengths {
        let (front, others) = left.split_at(usize::from(*n));
        put_shape(w, b'f', points, front);
        left = others;
    }
}

fn put_dot(w: &mut Writer, p: Point)
    requires { Fits w.old (dot_text p) }
    ensures put { Wrote w.old (dot_text p) w.new }
    ensures same { Same w.old w.new }
{
    w.byte(b'M');
    put_place(w, p);
    w.bytes(b"h0");
}

// By place: a `Ring` has no iterator, which would be one more type with its laws for this walk.
fn put_dots(w: &mut Writer, nodes: &FirstPoints)
    requires { Fits w.old (dots_text nodes.now.pts.now (numbered 0 nodes.now.n)) }
    ensures put { Wrote w.old (dots_text nodes.now.pts.now (numbered 0 nodes.now.n)) w.new }
    ensures same { Same w.old w.new }
{
    for i in 0..nodes.n {
        put_dot(w, nodes.at(i));
    }
}

pub fn put_nodes(w: &mut Writer, class: u8, nodes: &FirstPoints)
    requires { Fits w.old (nodes_text class nodes.now.pts.now nodes.now.n) }
    ensures put { Wrote w.old (nodes_text class nodes.now.pts.now nodes.now.n) w.new }
    ensures same { Same w.old w.new }
{
    put_open(w, class);
    put_dots(w, nodes);
    w.bytes(b"\"/>\n");
}
