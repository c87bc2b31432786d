// Closed lines through points, and a shape around one.
ghost use Rattle.std.specs.Prelude.{List, ◌≡◌, get_or};
ghost use Rattle.std.specs.Float.{nan};
ghost use Rattle.std.specs.Iterator.{IsFinite};
ghost use Rattle.std.proofs.lemmas.Iterator.{YieldsList};
ghost use Rattle.geometry.specs.Rings.{point_at};
ghost use Rattle.text.specs.Writing.{Fits, Same, Wrote};
ghost use Rattle.shapes.specs.Shapes.{line_text, ring_text, open_text, path_text};

use crate::places::put_place;
use geometry::Point;
use text::Writer;

// A coordinate; beyond the list's end no number.
fn value_at(points: &[f64], i: usize) -> f64
    ensures { result ≡ get_or points.now i nan }
{
    points.get(i).copied().unwrap_or(f64::NAN)
}

// The point of a node, whatever its number.
pub fn place_of(points: &[f64], node: u16) -> Point
    ensures { result ≡ point_at points.now node }
{
    let n = usize::from(node);
    Point {
        x: value_at(points, n * 2),
        y: value_at(points, n * 2 + 1),
    }
}

// A closed line through points.
pub fn put_ring<I: Iterator<Item = Point>>(w: &mut Writer, ring: I)
    ghost ps: { List Point }
    requires room { Fits w.old (line_text ps) }
    requires can { I.can_next ring }
    requires ends { IsFinite (I.remaining ring) }
    requires gives { YieldsList I.next_gives (λ p. p) ring ps }
    ensures put { Wrote w.old (line_text ps) w.new }
    ensures same { Same w.old w.new }
{
    w.byte(b'M');
    for p in ring {
        put_place(w, p);
    }
    w.byte(b'Z');
}

pub fn put_open(w: &mut Writer, class: u8)
    requires { Fits w.old (open_text class) }
    ensures put { Wrote w.old (open_text class) w.new }
    ensures same { Same w.old w.new }
{
    w.bytes(b"<path class=\"");
    w.byte(class);
    w.bytes(b"\" d=\"");
}

// A ring through nodes.
pub fn put_shape(w: &mut Writer, class: u8, points: &[f64], nodes: &[u16])
    requires { Fits w.old (path_text class (ring_text points.now nodes.now)) }
    ensures put { Wrote w.old (path_text class (ring_text points.now nodes.now)) w.new }
    ensures same { Same w.old w.new }
{
    put_open(w, class);
    put_ring(w, nodes.iter().map(|n| place_of(points, *n)));
    w.bytes(b"\"/>\n");
}
