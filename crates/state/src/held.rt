// The four buffers of a state, only read: those of a `Lent`, or any other slices.
ghost use Rattle.std.specs.Prelude.{◌≡◌, ℕ, ◌<◌, get_or};

#[derive(Clone, Copy)]
pub struct Buffers<'a> {
    pub points: &'a [f64],
    pub quads: &'a [u16],
    pub front_nodes: &'a [u16],
    pub front_lengths: &'a [u16],
}

// The same slice: of one that is passed the check knows that its numbers fit, of a field it does not.
pub fn fit_nodes(nodes: &[u16]) -> &[u16]
    ensures same { result.now ≡ nodes.now }
    ensures fit { (i : ℕ) → get_or result.now i 0 < 65536 }
{
    nodes
}
