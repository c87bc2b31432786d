// The sides of rings, written into two buffers: the lower node of each, and the higher. One buffer of pairs is no plainer: `link`
// reads the lower nodes alone, a chain the higher, and specs/Sides has a list of each.
ghost use Rattle.std.specs.Prelude.{◌≡◌, ◌++◌, ◌+◌, ◌≤◌, length, take};
ghost use Rattle.geometry.specs.Domain.{sum_of};
ghost use Rattle.state.specs.State.{cut};
ghost use Rattle.pair_counts.specs.Sides as specs;

use crate::rings::Rings;
use geometry::next_of;

fn lower(a: u16, b: u16) -> u16
    ensures { result ≡ specs.lower a b }
{
    a.min(b)
}

fn higher(a: u16, b: u16) -> u16
    ensures { result ≡ specs.higher a b }
{
    a.max(b)
}

// The sides of a ring, from place `at` on.
fn put_ring(lows: &mut [u16], highs: &mut [u16], at: usize, ring: &[u16])
    requires { (at + length ring.now ≤ length lows.old) × (at + length ring.now ≤ length highs.old) }
    ensures lows_after { take (at + length ring.now) lows.new ≡ take at lows.old ++ specs.ends specs.lower ring.now }
    ensures highs_after { take (at + length ring.now) highs.new ≡ take at highs.old ++ specs.ends specs.higher ring.now }
{
    let n = ring.len();
    for (i, a) in ring.iter().enumerate() {
        let b = ring[next_of(n, i)];
        lows[at + i] = lower(*a, b);
        highs[at + i] = higher(*a, b);
    }
}

// The sides of rings, from place `at` on. The place behind them. `scan` would keep the sum `start` inside a closure.
pub fn put_rings(lows: &mut [u16], highs: &mut [u16], at: usize, rings: &Rings) -> usize
    requires { (at + sum_of rings.now.lengths.now ≤ length lows.old) × (at + sum_of rings.now.lengths.now ≤ length highs.old) }
    ensures value { result ≡ at + sum_of rings.now.lengths.now }
    ensures lows_after { take result lows.new ≡ take at lows.old ++ specs.ends_of_all specs.lower (cut rings.now.lengths.now rings.now.nodes.now) }
    ensures highs_after { take result highs.new ≡ take at highs.old ++ specs.ends_of_all specs.higher (cut rings.now.lengths.now rings.now.nodes.now) }
{
    let mut start = 0usize;
    for n in rings.lengths {
        let end = start + usize::from(*n);
        put_ring(lows, highs, at + start, &rings.nodes[start..end]);
        start = end;
    }
    at + start
}
