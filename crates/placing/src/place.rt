// The nodes of a planned loop, written behind those of the loops before. The place `at` stands beside `points`, and not in a part of
// it that is cut off: node numbers count from the front of `points`.
ghost use Rattle.std.specs.Prelude.{◌≡◌, Some, cond, ◌∷◌, ℕ, ◌+◌, ◌*◌, ◌≤◌, ◌<◌, eqb, pos};
ghost use Rattle.std.specs.Option.{option_eq};
ghost use Rattle.std.specs.Float.{binary64, nan};
ghost use Rattle.std.specs.Float.Ieee.{of_int};
ghost use Rattle.std.proofs.Math.ListN as lists;
ghost use Rattle.std.proofs.lemmas.List.Edits.{sets};
ghost use Rattle.state.specs.Limits.{front_node_limit};
ghost use Rattle.planning.specs.Plan as plans;
ghost use Rattle.planning.specs.Backwards.{read_ring};
ghost use Rattle.placing.specs.Placed as laid;
ghost use Rattle.placing.specs.Placing.{between, betweens};

use geometry::{Point, Ring};
use planning::{LoopRing, Spacing, inner_of, margin_at};

fn whole(n: usize) -> f64
    requires { n < 4096 }
    ensures { result ≡ of_int binary64 (pos n) }
{
    // as: below 4096, so the error of try_from could not occur; Rust has no From between usize and f64
    f64::from(n as u32)
}

// A side from `a` to `b` with its length, its margin at `a` and its span, and how many inner points it gets.
#[derive(Clone, Copy)]
struct Side {
    a: Point,
    b: Point,
    length: f64,
    margin: f64,
    span: f64,
    parts: usize,
    ghost few: { parts < 4096 },
}

impl Side {
    // The `j`th of its inner points.
    fn point(self, j: usize) -> Point
        requires { j < 4096 }
        ensures { result ≡ between self.a self.b self.length self.margin self.span self.parts j }
    {
        let t = (self.margin + self.span * (whole(j) + 0.5) / whole(self.parts)) / self.length;
        Point {
            x: self.a.x + t * (self.b.x - self.a.x),
            y: self.a.y + t * (self.b.y - self.a.y),
        }
    }

    // Writes its inner points from place `at` on.
    fn place(self, points: &mut [f64], at: usize)
        requires { (at + self.parts) * 2 ≤ lists.length points.old }
        ensures { points.new ≡ sets points.old (at * 2) (betweens self.a self.b self.length self.margin self.span self.parts self.parts) }
    {
        for j in 0..self.parts {
            let p = self.point(j);
            geometry::put_point(points, at + j, p.x, p.y);
        }
    }
}

// The inner points of side `i`, one more if it is the side `longer`.
fn parts_of(inner: usize, i: usize, longer: Option<usize>) -> usize
    requires { inner < 4096 }
    ensures { result ≡ inner + cond (option_eq eqb longer (Some i)) 1 0 }
{
    inner + usize::from(longer == Some(i))
}

// Writes the start of the side from place `i` and its inner points, from place `at` on; answers how many nodes they are. Of an
// accepted job no length is 0: the points of a loop's ring are apart.
fn place_side(
    ring: LoopRing<'_>,
    spacing: Spacing,
    i: usize,
    length: f64,
    span: f64,
    longer: Option<usize>,
    points: &mut [f64],
    at: usize,
) -> usize
    requires n_bound { (i < ring.n) × (length ≡ plans.side_at (read_ring ring) i) × (span ≡ plans.span spacing.h spacing.corner_margin (read_ring ring) i) }
    requires i_value { plans.parts spacing.h spacing.corner_margin (read_ring ring) i ≡ plans.inner spacing.h spacing.corner_margin (read_ring ring) i + cond (option_eq eqb longer (Some i)) 1 0 }
    requires i_bound { (at + 1 + plans.parts spacing.h spacing.corner_margin (read_ring ring) i ≤ front_node_limit) × (front_node_limit * 2 ≤ lists.length points.old) }
    ensures { (result ≡ plans.parts spacing.h spacing.corner_margin (read_ring ring.entry) i + 1)
        × (points.new ≡ sets points.old (at * 2)
        (((read_ring ring.entry).at i).x ∷ ((read_ring ring.entry).at i).y
        ∷ laid.inner_points spacing.h spacing.corner_margin (read_ring ring.entry) i
        (plans.parts spacing.h spacing.corner_margin (read_ring ring.entry) i)
        (plans.parts spacing.h spacing.corner_margin (read_ring ring.entry) i))) }
{
    let a = ring.at(i);
    geometry::put_point(points, at, a.x, a.y);
    let parts = parts_of(inner_of(span, spacing.h), i, longer);
    if parts == 0 {
        return 1;
    }
    let b = ring.at(geometry::next_of(ring.n, i));
    let margin = margin_at(ring, spacing, i);
    let side = Side {
        a,
        b,
        length,
        margin,
        span,
        parts,
    };
    side.place(points, at + 1);
    parts + 1
}

// Writes the loop's nodes from place `at` on, with one more inner point on the side `longer`.
pub fn place(
    ring: LoopRing<'_>,
    spacing: Spacing,
    lengths: &[f64],
    spans: &[f64],
    longer: Option<usize>,
    points: &mut [f64],
    at: usize,
)
    requires n_bound { (ring.n ≤ lists.length lengths.now) × (ring.n ≤ lists.length spans.now) }
    requires by_index { (i : ℕ) → i < ring.n → lists.get_or lengths.now i nan ≡ plans.side_at (read_ring ring) i }
    requires by_index_2 { (i : ℕ) → i < ring.n → lists.get_or spans.now i nan ≡ plans.span spacing.h spacing.corner_margin (read_ring ring) i }
    requires by_index_3 { (i : ℕ) → i < ring.n → plans.parts spacing.h spacing.corner_margin (read_ring ring) i ≡ plans.inner spacing.h spacing.corner_margin (read_ring ring) i + cond (option_eq eqb longer (Some i)) 1 0 }
    requires n_bound_2 { (at + plans.planned spacing.h spacing.corner_margin (read_ring ring) ≤ front_node_limit) × (front_node_limit * 2 ≤ lists.length points.old) }
    ensures { points.new ≡ sets points.old (at * 2) (laid.placed spacing.h spacing.corner_margin (read_ring ring.entry) ring.entry.n) }
{
    let mut placed = 0;
    // by place: `place_side` asks the ring, which has no iterator, at the same place as the two slices
    for i in 0..ring.n {
        placed += place_side(
            ring,
            spacing,
            i,
            lengths[i],
            spans[i],
            longer,
            points,
            at + placed,
        );
    }
}
