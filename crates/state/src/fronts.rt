// Where a front's nodes stand among those of all fronts.
ghost use Rattle.std.specs.Prelude.{◌≡◌, ℕ, ◌*◌, ◌+◌, ◌<◌, ◌≤◌, drop, get_or, length, take};
ghost use Rattle.state.specs.Limits.{front_limit};
ghost use Rattle.geometry.specs.Domain.{sum_of};

use crate::Front;
use geometry::NodePoints;

// The fronts of a state, one after the other: the points of all nodes, the fronts' nodes, and how many nodes each front has.
// Who walks over them keeps the place by hand: an iterator of places would be one more type with its laws, for one sum.
#[derive(Clone, Copy)]
pub struct Fronts<'a> {
    pub points: &'a [f64],
    pub nodes: &'a [u16],
    pub lengths: &'a [u16],
    ghost few: { length lengths.now ≤ front_limit },
    ghost fits: { sum_of lengths.now ≤ length nodes.now },
    ghost named: { (i : ℕ) → i < sum_of lengths.now → get_or nodes.now i 0 * 2 + 1 < length points.now },
}

impl<'a> Fronts<'a> {
    // The points of the front at `start` with `len` nodes.
    pub fn ring(&self, start: usize, len: usize) -> NodePoints<'a>
        requires { start + len ≤ sum_of self.now.lengths.now }
        ensures points { result.pts.now ≡ self.now.points.now }
        ensures nodes { result.nodes.now ≡ take len (drop start self.now.nodes.now) }
    {
        NodePoints {
            pts: self.points,
            nodes: nodes_of(self.nodes, start, len),
        }
    }
}

// The sum of at most 16 lengths, of loops or of fronts.
pub fn sum_of(lengths: &[u16]) -> usize
    requires { length lengths.now ≤ front_limit }
    ensures { result ≡ sum_of lengths.now }
{
    lengths.iter().map(|n| usize::from(*n)).sum()
}

// The place of front `li` among the nodes of all fronts.
pub fn front_at(lengths: &[u16], li: usize) -> Front
    requires { (li < length lengths.now) × (length lengths.now ≤ front_limit) }
    ensures { (result.start ≡ sum_of (take li lengths.now)) × (result.len ≡ get_or lengths.now li 0) }
{
    Front {
        start: sum_of(&lengths[..li]),
        len: usize::from(lengths[li]),
    }
}

// The nodes of the front at `start` with `len` nodes.
pub fn nodes_of(front_nodes: &[u16], start: usize, len: usize) -> &[u16]
    requires { start + len ≤ length front_nodes.now }
    ensures { result.now ≡ take len (drop start front_nodes.now) }
{
    &front_nodes[start..start + len]
}
