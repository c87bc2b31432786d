// The four lent buffers of a state, together. That they are sound for some counts is a clause of each step and no ghost field: within
// a step they are not, and the counts go by value, as document 01 has them.
ghost use Rattle.std.specs.Prelude.{◌≡◌, ◌*◌, ◌<◌, ◌≤◌, true, get_or, length, take};
ghost use Rattle.geometry.specs.Domain as domains;
ghost use Rattle.state.specs.Limits.{front_limit};
ghost use Rattle.state.specs.State as states;
ghost use Rattle.state.specs.Call as calls;
ghost use Rattle.state.specs.Sound as sounds;
ghost use Rattle.state.specs.Given as givens;
ghost use Rattle.state.specs.Lent as lents;

use crate::buffers::fill_from;
use crate::fronts::{Fronts, front_at, sum_of};
use crate::{Buffers, Counts, Front};

#[derive(Drop)]
pub struct Lent<'a> {
    pub points: &'a mut [f64],
    pub quads: &'a mut [u16],
    pub front_nodes: &'a mut [u16],
    pub front_lengths: &'a mut [u16],
}

impl Lent<'_> {
    // A refused job's buffers: zeros, whatever their lengths.
    pub fn clear(&mut self)
        ensures same { lents.Same self.old self.new }
        ensures cleared { lents.held_in self.new states.no_counts ≡ states.zeros (lents.lengths_in self.old) }
    {
        self.points.fill(0.0);
        self.quads.fill(0);
        self.front_nodes.fill(0);
        self.front_lengths.fill(0);
    }

    // The place of front `li` of the first `fronts` among the nodes of all fronts.
    pub fn front(&self, fronts: usize, li: usize) -> Front
        requires { (li < fronts) × (fronts ≤ length self.now.front_lengths.now) × (fronts ≤ front_limit) }
        ensures { (result.start ≡ domains.sum_of (take li (take fronts self.now.front_lengths.now))) × (result.len ≡ get_or (take fronts self.now.front_lengths.now) li 0) }
    {
        front_at(&self.front_lengths[..fronts], li)
    }

    // The fronts of a sound state.
    pub fn fronts(&self, counts: Counts) -> Fronts
        requires { sounds.Sound (lents.held_in self.now counts) }
        ensures points { result.points.now ≡ take (counts.points * 2) self.now.points.now }
        ensures nodes { result.nodes.now ≡ self.now.front_nodes.now }
        ensures lengths { result.lengths.now ≡ sounds.sizes_of (lents.held_in self.now counts) }
    {
        Fronts {
            points: &self.points[..counts.points * 2],
            nodes: self.front_nodes,
            lengths: &self.front_lengths[..counts.fronts],
        }
    }

    // How many nodes the first `fronts` fronts have.
    pub fn nodes_on(&self, fronts: usize) -> usize
        requires { (fronts ≤ length self.now.front_lengths.now) × (fronts ≤ front_limit) }
        ensures { result ≡ domains.sum_of (take fronts self.now.front_lengths.now) }
    {
        sum_of(&self.front_lengths[..fronts])
    }

    // The state as it was, and zeros behind it. Buffers that are `clean` have them already: a step says so where it was told so.
    pub fn clear_behind(&mut self, clean: bool, counts: Counts)
        requires sound { sounds.Sound (lents.held_in self.old counts) }
        requires clean { clean ≡ true → sounds.Clean (lents.held_in self.old counts) }
        ensures same { lents.Same self.old self.new }
        ensures written { lents.held_in self.new counts ≡ states.written (states.reading (lents.held_in self.old counts)) }
    {
        if clean {
            return;
        }
        let fronts = counts.fronts;
        let total = self.nodes_on(fronts);
        fill_from(self.points, counts.points * 2, 0.0);
        fill_from(self.quads, counts.quads * 4, 0);
        fill_from(self.front_nodes, total, 0);
        fill_from(self.front_lengths, fronts, 0);
    }

    // The buffers as they stand, to be read.
    pub fn read(&self) -> Buffers
        ensures points { result.points.now ≡ self.now.points.now }
        ensures quads { result.quads.now ≡ self.now.quads.now }
        ensures front_nodes { result.front_nodes.now ≡ self.now.front_nodes.now }
        ensures front_lengths { result.front_lengths.now ≡ self.now.front_lengths.now }
    {
        Buffers {
            points: self.points,
            quads: self.quads,
            front_nodes: self.front_nodes,
            front_lengths: self.front_lengths,
        }
    }

    // Number 25, on buffers of the right lengths.
    pub fn is_wrong(&self, counts: Counts) -> bool
        requires { lents.lengths_in self.now ≡ calls.lent }
        ensures { result ≡ givens.wrong_state (lents.held_in self.now counts) }
    {
        self.read().is_wrong(counts)
    }
}
