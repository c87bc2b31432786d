// A state given back to a call: number 25. The test is linear in the state's size.
ghost use Rattle.std.specs.Prelude.{◌≡◌, false, not, ◌||◌, List, ℕ, ◌*◌, ◌+◌, ◌<◌, ◌≤◌, eqb, ltb, Float, get_or, length, take};
ghost use Rattle.geometry.specs.Domain as totals;
ghost use Rattle.state.specs.Limits.{front_limit, front_node_limit, point_limit, quad_limit};
ghost use Rattle.state.specs.State.{lengths};
ghost use Rattle.state.specs.Call.{held, lent};
ghost use Rattle.state.specs.Lent.{held_of};
ghost use Rattle.state.specs.Given as givens;

use crate::appending::narrow;
use crate::coordinates::wrong_coordinate;
use crate::fronts::sum_of;
use crate::limits::is_full;
use crate::{Buffers, Counts};

// Some of a few numbers is not below `n`. No test ends the loop, so several are done at a time.
fn some_of(n: u16, numbers: &[u16]) -> bool
    ensures { result ≡ givens.some_from n numbers.now }
{
    let mut some = false;
    for x in numbers {
        some |= n <= *x;
    }
    some
}

// The same of any numbers, 64 at a time: the first 64 that have such a number end it, so a state that is refused at once is not read to
// its end.
fn some_from(n: usize, numbers: &[u16]) -> bool
    requires { n ≤ point_limit }
    ensures { result ≡ givens.some_from n numbers.now }
{
    let n = narrow(n);
    let (chunks, rest) = numbers.as_chunks::<64>();
    chunks.iter().any(|chunk| some_of(n, chunk)) || some_of(n, rest)
}

// Some node number, all below `N`, stands twice: each is marked when it is met first.
fn repeats_in<const N: usize>(nodes: &[u16]) -> bool
    requires { (i : ℕ) → i < length nodes.now → get_or nodes.now i 0 < N }
    ensures { result ≡ givens.repeated nodes.now }
{
    let mut met = [false; N];
    for node in nodes {
        let node = usize::from(*node);
        if met[node] {
            return true;
        }
        met[node] = true;
    }
    false
}

// The same for numbers below `n`. Most states have few points, and fewer marks are made sooner.
fn repeats(n: usize, nodes: &[u16]) -> bool
    requires { (n ≤ point_limit) × ((i : ℕ) → i < length nodes.now → get_or nodes.now i 0 < n) }
    ensures { result ≡ givens.repeated nodes.now }
{
    if n <= 256 {
        repeats_in::<256>(nodes)
    } else {
        repeats_in::<4096>(nodes)
    }
}

// A node number of a quad or a front is not below the `n` points, or a front node is repeated.
fn wrong_nodes(n: usize, quads: &[u16], nodes: &[u16]) -> bool
    requires { n ≤ point_limit }
    ensures { result ≡ (givens.some_from n quads.now || givens.some_from n nodes.now || givens.repeated nodes.now) }
{
    some_from(n, quads) || some_from(n, nodes) || repeats(n, nodes)
}

// The counts do not fit together. No sum or product here can wrap.
fn wrong_sums(counts: Counts) -> bool
    ensures { result ≡ (not (eqb (counts.row_quads + counts.core_quads) counts.quads) || ltb counts.quads counts.laid || ltb counts.row_quads (6 * counts.row_rounds)) }
{
    counts.quads < counts.row_quads
        || counts.core_quads != counts.quads - counts.row_quads
        || counts.quads < counts.laid
        || counts.row_quads / 6 < counts.row_rounds
}

// Counts pass their limits, or a front has under 3 nodes.
fn wrong_counts(front_lengths: &[u16], counts: Counts) -> bool
    requires { length front_lengths.now ≡ front_limit }
    ensures exact { (p : List Float) (q n : List ℕ) → result ≡ givens.wrong_counts (held p q n front_lengths.now counts) }
    ensures within { result ≡ false → (counts.points ≤ point_limit) × (counts.quads ≤ quad_limit) × (counts.fronts ≤ front_limit)
        × (totals.sum_of (take counts.fronts front_lengths.now) ≤ front_node_limit) }
{
    if is_full(counts.points, counts.quads) || 16 < counts.fronts {
        return true;
    }
    let lengths = &front_lengths[..counts.fronts];
    2048 < sum_of(lengths) || lengths.iter().any(|n| *n < 3)
}

impl Buffers<'_> {
    // Number 25, on buffers of the right lengths.
    pub fn is_wrong(&self, counts: Counts) -> bool
        requires { lengths (held_of self.now counts) ≡ lent }
        ensures { result ≡ givens.wrong_state (held_of self.now counts) }
    {
        if wrong_counts(self.front_lengths, counts) {
            return true;
        }
        let laid = &self.quads[..counts.quads * 4];
        let total = sum_of(&self.front_lengths[..counts.fronts]);
        wrong_nodes(counts.points, laid, &self.front_nodes[..total])
            || wrong_coordinate(1000000000.0, &self.points[..counts.points * 2])
            || wrong_sums(counts)
    }
}
