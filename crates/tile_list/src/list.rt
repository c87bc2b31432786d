// A tile list in the buffers that it was read into.
ghost use Rattle.std.specs.Prelude.{◌≡◌, ℕ, ◌<◌, T, get_or, length};
ghost use Rattle.std.specs.Float.{binary64, nan};
ghost use Rattle.std.specs.Float.Ieee.{fits};
ghost use Rattle.state.specs.Limits.{quad_limit};
ghost use Rattle.state.specs.State.{lengths};
ghost use Rattle.state.specs.Call.{held, lent};
ghost use Rattle.state.specs.Lent.{held_of};

use state::{Buffers, Counts};

// The loops, a state, and how many nodes each of its quads has; the loops stand as a state's fronts do. Of a slice that is passed the
// check knows that its numbers fit, of a field it does not, so two fields say it.
#[derive(Clone, Copy)]
pub struct HeldList<'a> {
    pub loop_nodes: &'a [u16],
    pub loop_lengths: &'a [u16],
    pub state: Buffers<'a>,
    pub quad_lengths: &'a [u16],
    pub loops: usize,
    pub counts: Counts,
    ghost state_long: { lengths (held_of state counts) ≡ lent },
    ghost loops_long: { lengths (held state.points.now state.quads.now loop_nodes.now loop_lengths.now counts) ≡ lent },
    ghost quads_long: { length quad_lengths.now ≡ quad_limit },
    ghost nodes_fit: { (i : ℕ) → get_or loop_nodes.now i 0 < 65536 },
    ghost points_fit: { (i : ℕ) → T (fits binary64 (get_or state.points.now i nan)) },
}

// The same slice, with what is known of a slice that is passed; an array that was lent does not keep it.
pub fn fit_points(points: &[f64]) -> &[f64]
    ensures same { result.now ≡ points.now }
    ensures fit { (i : ℕ) → T (fits binary64 (get_or result.now i nan)) }
{
    points
}
