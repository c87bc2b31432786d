// What closes one front.
ghost use Rattle.std.specs.Prelude.{◌≡◌, ◌||◌, ◌+◌, ◌<◌, eqb, length};
ghost use Rattle.std.specs.Float.Ieee.{lt};
ghost use Rattle.rules.specs.Closing.{best_split, close_four, closure};
ghost use Rattle.closing_search.specs.Closures.{closure_quads, split_of};

use crate::quads::Quad;
use geometry::NodePoints;

// What closes a front: nothing, and it is kept, or its quads. No `Option`: a front is kept, or closed by one quad, or by two, and an
// `Option` of quads would have to say a second time how many they are.
#[derive(Clone, Copy)]
pub enum Closure {
    Kept,
    One(Quad<u16>),
    Two(Quad<u16>, Quad<u16>),
}

impl Closure {
    // How many quads it has.
    pub fn count(self) -> usize
        ensures { result ≡ length (closure_quads self) }
    {
        match self {
            Closure::Kept => 0,
            Closure::One(_) => 1,
            Closure::Two(_, _) => 2,
        }
    }

    pub fn is_kept(self) -> bool
        ensures { result ≡ eqb (length (closure_quads self)) 0 }
    {
        self.count() == 0
    }
}

// A front of six nodes split in two quads that pass the corner test, with their least corner value.
#[derive(Clone, Copy)]
pub struct Split {
    pub first: Quad<u16>,
    pub second: Quad<u16>,
    pub score: f64,
}

// Four nodes: one quad, if it passes the corner test.
#[tactic(auto, unfolding(rules::specs::Closing::close_four))]
fn close_four(front: &NodePoints, limit: f64) -> Closure
    requires nodes_len { length front.now.nodes.now ≡ 4 }
    ensures { closure_quads result ≡ close_four limit front.now.pts.now front.now.nodes.now }
{
    let q = Quad {
        a: front.nodes[0],
        b: front.nodes[1],
        c: front.nodes[2],
        d: front.nodes[3],
    }
    .turned(front.pts);
    if q.passes(front.pts, limit) {
        Closure::One(q)
    } else {
        Closure::Kept
    }
}

// A split with this least corner value takes the place of `best`: the first one does, and one that equals the best does not.
fn beats(best: Option<Split>, score: f64) -> bool
    ensures { result ≡ (eqb (length (split_of best).quads) 0 || lt (split_of best).score score) }
{
    best.is_none_or(|b| b.score < score)
}

// The better of `best`, of the splits before place `i`, and the split at place `i`, which joins that node with the one opposite.
fn better_split(front: &NodePoints, limit: f64, i: usize, best: Option<Split>) -> Option<Split>
    requires nodes_len { (length front.now.nodes.now ≡ 6) × (i < 3) }
    requires best_value { split_of best ≡ best_split limit front.now.pts.now front.now.nodes.now i }
    ensures { split_of result ≡ best_split limit front.now.pts.now front.now.nodes.now (i + 1) }
{
    let first = Quad {
        a: front.nodes[i],
        b: front.nodes[i + 1],
        c: front.nodes[i + 2],
        d: front.nodes[i + 3],
    }
    .turned(front.pts);
    let second = Quad {
        a: front.nodes[i],
        b: front.nodes[i + 3],
        c: front.nodes[(i + 4) % 6],
        d: front.nodes[(i + 5) % 6],
    }
    .turned(front.pts);
    if !first.passes(front.pts, limit) {
        return best;
    }
    if !second.passes(front.pts, limit) {
        return best;
    }
    let score = float::lesser(first.least(front.pts), second.least(front.pts));
    if beats(best, score) {
        return Some(Split {
            first,
            second,
            score,
        });
    }
    best
}

// Six nodes: the best of three splits, the Rust's `best_six_closure`.
#[tactic(auto, unfolding(rules::specs::Closing::best_split))]
fn close_six(front: &NodePoints, limit: f64) -> Closure
    requires nodes_len { length front.now.nodes.now ≡ 6 }
    ensures { closure_quads result ≡ (best_split limit front.now.pts.now front.now.nodes.now 3).quads }
{
    let mut best = None;
    for i in 0..3 {
        best = better_split(front, limit, i, best);
    }
    match best {
        None => Closure::Kept,
        Some(split) => Closure::Two(split.first, split.second),
    }
}

// What closes a front, by how many nodes it has: only four or six are closed.
#[tactic(auto, unfolding(rules::specs::Closing::closure))]
pub fn close_front(front: &NodePoints, limit: f64) -> Closure
    ensures { closure_quads result ≡ closure limit front.now.pts.now front.now.nodes.now }
{
    match front.nodes.len() {
        4 => close_four(front, limit),
        6 => close_six(front, limit),
        _ => Closure::Kept,
    }
}
