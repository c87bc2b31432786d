// The order of a pass: the fronts by length, equal lengths in front order. The Rust's `sort_by`, for at most 16 fronts.
ghost use Rattle.std.specs.Prelude.{◌≡◌, ℕ, All, ◌+◌, ◌<◌, ◌≤◌, length, take};
ghost use Rattle.state.specs.Limits.{front_limit};
ghost use Rattle.rules.specs.Passes.{inserted, ordered};
ghost use Rattle.passes.specs.Order.{length_in, length_of, order_of, put_in};

use geometry::front_length;
use state::Fronts;

// The length of each front, measured once. Written by place: after `iter_mut().zip(..)` a proof knows nothing of what was written.
fn lengths_of(fronts: &Fronts) -> [f64; 16]
    ensures { (k : ℕ) → k < length fronts.now.lengths.now → length_in result k ≡ length_of fronts.now.points.now fronts.now.nodes.now fronts.now.lengths.now k }
{
    let mut lengths = [0.0; 16];
    // `start` is summed by hand: `scan` would keep the same sum inside a closure.
    let mut start = 0;
    for (i, len) in fronts.lengths.iter().enumerate() {
        let len = usize::from(*len);
        lengths[i] = front_length(&fronts.ring(start, len));
        start += len;
    }
    lengths
}

// Where front `i` goes among the fronts before it, which are in order: behind every one that is not longer.
fn place_of(lengths: &[f64; 16], order: &[usize], i: usize) -> usize
    requires { (i < front_limit) × (i < length order.now) × All (λ k. k < front_limit) (take i order.now) }
    ensures { (result ≤ i) × (inserted (length_in lengths.now) i (take i order.now) ≡ put_in (take i order.now) result i) }
{
    let own = lengths[i];
    order[..i]
        .iter()
        .position(|other| own < lengths[*other])
        .unwrap_or(i)
}

// Front `i` put at place `at` of the first `i` places; those from there on move up by one.
fn put_in(order: &mut [usize], at: usize, i: usize)
    requires { (at ≤ i) × (i < length order.old) }
    ensures { take (i + 1) order.new ≡ put_in (take i order.old) at i }
{
    order.copy_within(at..i, at + 1);
    order[at] = i;
}

// The first `n` fronts by length, each put behind every earlier one that is not longer. By hand: they are at most 16, and std's stable
// sorts take an allocator, where there is no heap.
fn sorted(lengths: &[f64; 16], n: usize) -> [usize; 16]
    requires { n ≤ front_limit }
    ensures { take n result ≡ ordered (length_in lengths.now) n }
{
    let mut order = [0; 16];
    for i in 0..n {
        let at = place_of(lengths, &order, i);
        put_in(&mut order, at, i);
    }
    order
}

// The order of a pass, in the first places.
pub fn pass_order(fronts: &Fronts) -> [usize; 16]
    ensures { take (length fronts.now.lengths.now) result ≡ order_of fronts.now.points.now fronts.now.nodes.now fronts.now.lengths.now }
{
    let lengths = lengths_of(fronts);
    sorted(&lengths, fronts.lengths.len())
}
