// Rings of nodes that stand one after the other, and how many nodes each of them has: loops, quads or fronts.
ghost use Rattle.std.specs.Prelude.{ℕ, ◌<◌, ◌≤◌, get_or, length};
ghost use Rattle.geometry.specs.Domain.{sum_of};
ghost use Rattle.state.specs.Limits.{point_limit};

#[derive(Clone, Copy)]
pub struct Rings<'a> {
    pub nodes: &'a [u16],
    pub lengths: &'a [u16],
    ghost fits: { sum_of lengths.now ≤ length nodes.now },
    ghost below: { (i : ℕ) → i < sum_of lengths.now → get_or nodes.now i 0 < point_limit },
}
