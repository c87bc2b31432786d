// A loop's ring as the code reads it. A file of its own: the definitions name the type, and the methods name the definitions.
ghost use Rattle.std.specs.Prelude.{◌*◌, ◌≤◌, length};

// The first `n` points of `pts`, read backwards if `back`.
#[derive(Clone, Copy)]
pub struct LoopRing<'a> {
    pub pts: &'a [f64],
    pub n: usize,
    pub back: bool,
    ghost within: { n * 2 ≤ length pts.now },
}
