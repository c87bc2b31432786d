// The higher nodes of a chain are counted in a tally, the counts are tested, and the tally is cleared again. The loops are as long as the chain.
ghost use Rattle.std.specs.Prelude.{◌≡◌, ℕ, ◌<◌, eqb, length, get_or, replicate};
ghost use Rattle.state.specs.Limits.{point_limit};
ghost use Rattle.pair_counts.specs.Chains as specs;
ghost use Rattle.pair_counts.specs.Tally.{times, every_of, each_twice};

use crate::chain::Chain;

// How often each higher node stands on the chain.
fn count(chain: Chain, tally: &mut [u16])
    requires { tally.old ≡ replicate point_limit 0 }
    ensures { (v : ℕ) → v < point_limit → get_or tally.new v 0 ≡ times v (specs.chain chain.entry.behind.now chain.entry.highs.now chain.entry.place) }
{
    for node in chain {
        tally[usize::from(node)] += 1;
    }
}

fn is_two(tally: &[u16], node: u16) -> bool
    requires { node < length tally.now }
    ensures { result ≡ eqb (get_or tally.now node 0) 2 }
{
    tally[usize::from(node)] == 2
}

// Each of them is counted twice.
fn all_two(mut chain: Chain, tally: &[u16]) -> bool
    requires { length tally.now ≡ point_limit }
    ensures { result ≡ every_of (λ v. eqb (get_or tally.now v 0) 2) (specs.chain chain.entry.behind.now chain.entry.highs.now chain.entry.place) }
{
    chain.all(|node| is_two(tally, node))
}

// Zeros again, where the chain has its higher nodes.
fn clear(chain: Chain, tally: &mut [u16])
    requires tally_len { length tally.old ≡ point_limit }
    requires by_index { (v : ℕ) → v < point_limit → times v (specs.chain chain.behind.now chain.highs.now chain.place) ≡ 0 → get_or tally.old v 0 ≡ 0 }
    ensures { tally.new ≡ replicate point_limit 0 }
{
    for node in chain {
        tally[usize::from(node)] = 0;
    }
}

// Each higher node of the chain stands there twice. The tally is zeros again.
pub fn chain_twice(chain: Chain, tally: &mut [u16]) -> bool
    requires { tally.old ≡ replicate point_limit 0 }
    ensures value { result ≡ each_twice (specs.chain chain.entry.behind.now chain.entry.highs.now chain.entry.place) }
    ensures tally_after { tally.new ≡ replicate point_limit 0 }
{
    count(chain, tally);
    let r = all_two(chain, tally);
    clear(chain, tally);
    r
}
