// The measures of an outline: the coordinates of all loops and the loops' lengths, the outer one first, as the header for C has them.
ghost use Rattle.std.specs.Prelude.{◌≡◌, false, true, MatchOption};
ghost use Rattle.exports_geometry.specs.Measures.{point};
ghost use Rattle.exports_geometry.specs.Outline.{area_or, boundary_or, contains_or_not, loops_fit};

use geometry::{Outline, Point};

// Whether the coordinates have points for loops of these lengths. An outline of one loop takes
// one test: on the older kit the area of a domain of 4 points took 1.00 of the Rust's time so, and 1.04 by the loop (docs/MEASURED.md).
fn loops_fit(coords: &[f64], loop_lengths: &[u16]) -> bool
    ensures { result ≡ loops_fit coords.now loop_lengths.now }
{
    let mut left = coords.len() / 2;
    if loop_lengths.len() == 1 {
        return usize::from(loop_lengths[0]) <= left;
    }
    // by what is left: the sum of any number of lengths may not fit, and `try_fold` would have this test and difference in a closure
    for n in loop_lengths {
        let n = usize::from(*n);
        if left < n {
            return false;
        }
        left -= n;
    }
    true
}

// The outline, where the coordinates have points for its loops.
fn outline_of<'a>(coords: &'a [f64], loop_lengths: &'a [u16]) -> Option<Outline<'a>>
    ensures { MatchOption result (loops_fit coords.now loop_lengths.now ≡ false) (λ outline. (loops_fit coords.now loop_lengths.now ≡ true) × (outline.coords.now ≡ coords.now) × (outline.loop_lengths.now ≡ loop_lengths.now)) }
{
    if loops_fit(coords, loop_lengths) {
        return Some(Outline {
            coords,
            loop_lengths,
        });
    }
    None
}

// The area within the outer loop and outside the holes; NaN where the lengths ask for more points than there are.
#[unsafe(no_mangle)]
pub extern "C" fn pave_domain_area(coords: &[f64], loop_lengths: &[u16]) -> f64
    ensures { result ≡ area_or coords.now loop_lengths.now }
{
    let Some(outline) = outline_of(coords, loop_lengths) else {
        return f64::NAN;
    };
    outline.area()
}

// Whether (x, y) is within the outer loop and outside every hole; false where the lengths ask for more points than there are.
#[unsafe(no_mangle)]
pub extern "C" fn pave_contains(x: f64, y: f64, coords: &[f64], loop_lengths: &[u16]) -> bool
    ensures { result ≡ contains_or_not (point x y) coords.now loop_lengths.now }
{
    let Some(outline) = outline_of(coords, loop_lengths) else {
        return false;
    };
    outline.contains(Point { x, y })
}

// The distance from (x, y) to the nearest side; NaN where the lengths ask for more points than there are.
#[unsafe(no_mangle)]
pub extern "C" fn pave_distance_to_boundary(
    x: f64,
    y: f64,
    coords: &[f64],
    loop_lengths: &[u16],
) -> f64
    ensures { result ≡ boundary_or (point x y) coords.now loop_lengths.now }
{
    let Some(outline) = outline_of(coords, loop_lengths) else {
        return f64::NAN;
    };
    outline.distance_to_boundary(Point { x, y })
}
