// What the lent buffers have room for.
ghost use Rattle.std.specs.Prelude.{◌≡◌, ◌||◌, ltb};
ghost use Rattle.state.specs.Limits.{point_limit, quad_limit};

// So many points, or so many quads, are more than a state has.
pub fn is_full(points: usize, quads: usize) -> bool
    ensures { result ≡ (ltb point_limit points || ltb quad_limit quads) }
{
    4096 < points || 4096 < quads
}
