// Points, quads and front numbers written into their buffers. The place stands beside the buffer, since each contract says what the
// whole buffer holds after it.
ghost use Rattle.std.specs.Prelude.{◌≡◌, [], ◌∷◌, ◌+◌, ◌<◌, ◌≤◌, length};
ghost use Rattle.std.proofs.lemmas.List.Edits.{sets};
ghost use Rattle.state.specs.Limits.{point_limit};
ghost use Rattle.state.specs.State.{numbered};

// A node number. as: below 65536, so the error of `try_from` could not occur.
pub fn narrow(n: usize) -> u16
    requires { n < 65536 }
    ensures { result ≡ n }
{
    n as u16
}

// `more` from place `at` on.
pub fn put_all<T: Copy>(buffer: &mut [T], at: usize, more: &[T])
    requires { at + length more.now ≤ length buffer.old }
    ensures { buffer.new ≡ sets buffer.old at more.now }
{
    // One by one: `copy_from_slice` would call `memmove`, which the archives for C do not ask for.
    for (i, x) in more.iter().enumerate() {
        buffer[at + i] = *x;
    }
}

// A quad's four numbers come one by one: closing's quads stand in a crate above, and a row and a fan make theirs for the one call.
pub fn put_quad(quads: &mut [u16], at: usize, a: u16, b: u16, c: u16, d: u16)
    requires { at + 4 ≤ length quads.old }
    ensures { quads.new ≡ sets quads.old at (a ∷ b ∷ c ∷ d ∷ []) }
{
    // Four stores: `copy_from_slice` of an array is a call, a fifth slower.
    quads[at] = a;
    quads[at + 1] = b;
    quads[at + 2] = c;
    quads[at + 3] = d;
}

// The nodes from place `start` on become `n` numbers from `first` on.
pub fn put_numbers(nodes: &mut [u16], start: usize, n: usize, first: usize)
    requires { (start + n ≤ length nodes.old) × (first + n ≤ point_limit) }
    ensures { nodes.new ≡ sets nodes.old start (numbered first n) }
{
    for (i, node) in nodes[start..start + n].iter_mut().enumerate() {
        *node = narrow(first + i);
    }
}
