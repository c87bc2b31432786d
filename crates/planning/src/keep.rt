// Dropping and popping: a loop's points without those close to the last kept.
ghost use Rattle.std.specs.Prelude.{◌≡◌, true, cond, ◌+◌, ◌*◌, ◌≤◌, ◌<◌, length, set, take};
ghost use Rattle.std.specs.Float.Ieee.{lt};
ghost use Rattle.std.proofs.lemmas.List.Edits.{sets};
ghost use Rattle.float.specs.Helpers.{absolute};
ghost use Rattle.geometry.specs.Rings.{ring_of};
ghost use Rattle.planning.specs.Ring as rings;
ghost use Rattle.planning.specs.Kept.{close_to_last};

use geometry::{FirstPoints, Point, Ring};

// Points whose coordinates both differ by less than this count as equal.
pub fn closeness(h: f64) -> f64
    ensures { result ≡ rings.closeness h }
{
    0.001 * h
}

// A magnitude below the limit, tested on either side.
fn below(d: f64, limit: f64) -> bool
    ensures { result ≡ lt (absolute d) limit }
{
    d < limit && -limit < d
}

// Both coordinate differences are below the limit.
fn close(a: Point, b: Point, limit: f64) -> bool
    ensures { result ≡ rings.close limit a b }
{
    below(a.x - b.x, limit) && below(a.y - b.y, limit)
}

// Whether `p` is close to the last of the `m` points kept. The buffer and its count are no struct: `keep_points` writes to the buffer
// and `all_apart` only reads, and one struct cannot lend both ways.
fn close_to_last(kept: &[f64], m: usize, p: Point, limit: f64) -> bool
    requires { m * 2 ≤ length kept.now }
    ensures { result ≡ close_to_last limit kept.now m p }
{
    0 < m && close(geometry::point_at(kept, m - 1), p, limit)
}

// Keeps `p` behind the `m` points kept, unless it is close to the last of them; answers how many are kept.
fn keep_point(kept: &mut [f64], m: usize, p: Point, limit: f64) -> usize
    requires { m * 2 + 1 < length kept.old }
    ensures { (result ≡ cond (close_to_last limit kept.old m p) m (m + 1))
        × (kept.new ≡ cond (close_to_last limit kept.old m p) kept.old (set (set kept.old (m * 2) p.x) (m * 2 + 1) p.y)) }
{
    if close_to_last(kept, m, p, limit) {
        return m;
    }
    geometry::put_point(kept, m, p.x, p.y);
    m + 1
}

// Keeps a loop's points, without those close to the last kept; answers how many are kept.
pub fn keep_points(given: &FirstPoints<'_>, h: f64, kept: &mut [f64]) -> usize
    requires { given.now.n * 2 ≤ length kept.old }
    ensures { (result ≤ given.now.n) × (result * 2 ≡ length (rings.kept (rings.closeness h) (ring_of given.now.pts.now given.now.n) given.now.n)) × (kept.new ≡ sets kept.old 0 (rings.kept (rings.closeness h) (ring_of given.now.pts.now given.now.n) given.now.n)) }
{
    let limit = closeness(h);
    let mut m = 0usize;
    // by place: chunks of two numbers would have to be made points by hand, which `at` does
    for k in 0..given.n {
        m = keep_point(kept, m, given.at(k), limit);
    }
    m
}

// Whether no point of a loop is close to the one before, so that all are kept.
pub fn all_apart(given: &FirstPoints<'_>, h: f64) -> bool
    ensures { result ≡ true → take (given.now.n * 2) given.now.pts.now ≡ rings.kept (rings.closeness h) (ring_of given.now.pts.now given.now.n) given.now.n }
{
    let limit = closeness(h);
    (0..given.n).all(|k| !close_to_last(given.pts, k, given.at(k), limit))
}

// How many of the points kept are left when last points close to the first are popped.
pub fn unclosed(kept: &FirstPoints<'_>, limit: f64) -> usize
    ensures { (result ≡ rings.unclosed limit kept.now.pts.now kept.now.n) × (result ≤ kept.now.n) }
{
    let mut m = kept.n;
    // from the end, until one stays: `find` would need a case of its own for one point or none
    while 1 < m && close(kept.at(0), kept.at(m - 1), limit) {
        m -= 1;
    }
    m
}
