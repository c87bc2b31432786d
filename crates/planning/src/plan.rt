// The plan of a loop: how many inner points each side gets.
ghost use Rattle.std.specs.Prelude.{◌≡◌, cond, ◌&&◌, ℕ, ◌+◌, ◌≤◌, ◌<◌, max, min, eqb, Float, get_or, length};
ghost use Rattle.std.specs.Float.Ieee.{lt};
ghost use Rattle.std.specs.Float.{nan};
ghost use Rattle.float.specs.Helpers.{decimal, greater, round_away};
ghost use Rattle.geometry.specs.F64.{◌⊖◌, ◌⊗◌, ◌⊘◌};
ghost use Rattle.geometry.specs.Rings.{Ring};
ghost use Rattle.state.specs.Limits.{front_node_limit};
ghost use Rattle.planning.specs.Plan as plans;
ghost use Rattle.planning.specs.Backwards.{read_ring};
ghost use Rattle.planning.specs.Measured.{Measured};

use crate::loop_ring::LoopRing;
use crate::sides::measure_sides;
use crate::spacing::Spacing;

// The nodes planned, where inner points over 2,048 count as 2,049; and the longest side with a positive span.
#[derive(Clone, Copy)]
pub struct Plan {
    pub total: usize,
    pub longest: usize,
}

// A side and its length.
#[derive(Clone, Copy)]
struct Best {
    side: usize,
    length: f64,
}

// The inner points of a side with this span.
pub fn inner_of(span: f64, h: f64) -> usize
    ensures { result ≡ cond (lt span (decimal 6 1 ⊗ h)) 0 (max 1 (round_away (span ⊘ h))) }
{
    if span < 0.6 * h {
        0
    } else {
        float::round_away(span / h).max(1)
    }
}

// What is left of a side's length between its margins.
fn span_of(length: f64, start: f64, end: f64) -> f64
    ensures { result ≡ greater (length ⊖ start ⊖ end) (decimal 0 0) }
{
    float::greater(length - start - end, 0.0)
}

// The sum of inner points, which stays at 2,049 once it is over 2,048.
fn capped(sum: usize, inner: usize) -> usize
    requires { sum ≤ 2049 }
    ensures { result ≡ min (sum + inner) 2049 }
{
    sum + inner.min(2049 - sum)
}

// The longer of two sides, the first on a tie; the second counts only with a positive span.
fn longer(best: Best, span: f64, length: f64, i: usize) -> Best
    ensures { (result.side ≡ cond (lt (decimal 0 0) span && lt best.length length) i best.side)
        × (result.length ≡ cond (lt (decimal 0 0) span && lt best.length length) length best.length) }
{
    if 0.0 < span && best.length < length {
        Best { side: i, length }
    } else {
        best
    }
}

// The margin at place `j`, where the first has been overwritten.
fn margin_behind(margins: &[f64], first: f64, j: usize) -> f64
    requires { j < length margins.now }
    ensures { result ≡ cond (eqb j 0) first (get_or margins.now j nan) }
{
    if j == 0 { first } else { margins[j] }
}

// Plans the sides of any ring that has these lengths and margins. Each margin gives way to the side's span.
fn plan_measured(n: usize, h: f64, lengths: &[f64], spans: &mut [f64]) -> Plan
    requires { (0 < n) × (n ≤ front_node_limit) × (n ≤ length lengths.now) × (n ≤ length spans.old) }
    ensures { (corner_margin : Float) (ring : Ring) → Measured h corner_margin ring n lengths.now spans.old
        → (result.total ≡ n + min (plans.inner_sum h corner_margin ring n) 2049) × (result.longest ≡ (plans.longest h corner_margin ring n).0)
        × ((i : ℕ) → i < n → get_or spans.new i nan ≡ plans.span h corner_margin ring i) }
{
    let first = spans[0];
    let mut sum = 0usize;
    let mut best = Best {
        side: 0,
        length: -1.0,
    };
    let mut start = first;
    // by place: the margin at the next place is read while the span at this one is written
    for i in 0..n {
        let end = margin_behind(spans, first, geometry::next_of(n, i));
        let length = lengths[i];
        let span = span_of(length, start, end);
        spans[i] = span;
        sum = capped(sum, inner_of(span, h));
        best = longer(best, span, length, i);
        start = end;
    }
    Plan {
        total: n + sum,
        longest: best.side,
    }
}

// Writes the sides' lengths and spans and plans them.
pub fn plan_sides(
    ring: LoopRing<'_>,
    spacing: Spacing,
    lengths: &mut [f64],
    spans: &mut [f64],
) -> Plan
    requires { (0 < ring.n) × (ring.n ≤ front_node_limit) × (ring.n ≤ length lengths.old) × (ring.n ≤ length spans.old) }
    ensures { (result.total ≡ ring.entry.n + min (plans.inner_sum spacing.h spacing.corner_margin (read_ring ring.entry) ring.entry.n) 2049)
        × (result.longest ≡ (plans.longest spacing.h spacing.corner_margin (read_ring ring.entry) ring.entry.n).0)
        × ((i : ℕ) → i < ring.entry.n → get_or lengths.new i nan ≡ plans.side_at (read_ring ring.entry) i)
        × ((i : ℕ) → i < ring.entry.n → get_or spans.new i nan ≡ plans.span spacing.h spacing.corner_margin (read_ring ring.entry) i) }
{
    measure_sides(ring, spacing, lengths, spans);
    plan_measured(ring.n, spacing.h, lengths, spans)
}
