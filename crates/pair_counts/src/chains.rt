// The sides chained by their lower node, and the test over all chains.
ghost use Rattle.std.specs.Prelude.{◌≡◌, ℕ, ◌≤◌, ◌<◌, length, get_or, replicate};
ghost use Rattle.state.specs.Limits.{point_limit};
ghost use Rattle.pair_counts.specs.Sides.{side_limit};
ghost use Rattle.pair_counts.specs.Twice.{every};
ghost use Rattle.pair_counts.specs.Chains.{Linked, Walk, chain};
ghost use Rattle.pair_counts.specs.Tally.{each_twice, sides_twice};

use crate::chain::Chain;
use crate::tally::chain_twice;
use state::narrow;

// Each side is put before the chain of its lower node.
fn link(lows: &[u16], first: &mut [u16], behind: &mut [u16])
    requires lows_len_bound { (length lows.now ≤ side_limit) × (length lows.now ≤ length behind.old) }
    requires first_value { first.old ≡ replicate point_limit 0 }
    requires by_index { (i : ℕ) → i < length lows.now → get_or lows.now i 0 < point_limit }
    ensures { Linked lows.now behind.new first.new (length lows.now) }
{
    for (i, low) in lows.iter().enumerate() {
        let node = usize::from(*low);
        behind[i] = first[node];
        first[node] = narrow(i + 1);
    }
}

// On each node's chain each higher node stands twice. Tried as `first.iter().all(..)`, the proof did not close: the library's lemma
// asks for a closure that is the same after each call, and this one has the tally.
fn chains_twice(highs: &[u16], behind: &[u16], first: &[u16], tally: &mut [u16]) -> bool
    requires first_len { (length first.now ≡ point_limit) × (tally.old ≡ replicate point_limit 0) }
    requires by_index { (u : ℕ) → u < point_limit → Walk highs.now behind.now (get_or first.now u 0) }
    ensures { result ≡ every (λ u. each_twice (chain behind.now highs.now (get_or first.now u 0))) point_limit }
{
    for place in first {
        let chain = Chain {
            highs,
            behind,
            place: *place,
        };
        if !chain_twice(chain, tally) {
            return false;
        }
    }
    true
}

// The same of sides by their lower and higher nodes.
pub fn sides_twice(lows: &[u16], highs: &[u16]) -> bool
    requires lows_len_bound { (length lows.now ≤ side_limit) × (length highs.now ≡ length lows.now) }
    requires by_index { (i : ℕ) → i < length lows.now → get_or lows.now i 0 < point_limit }
    requires by_index_2 { (i : ℕ) → i < length lows.now → get_or highs.now i 0 < point_limit }
    ensures { result ≡ sides_twice lows.now highs.now }
{
    let mut first = [0u16; 4096];
    let mut behind = [0u16; 20480];
    link(lows, &mut first, &mut behind);
    let mut tally = [0u16; 4096];
    chains_twice(highs, &behind, &first, &mut tally)
}
