// Coordinates within a limit: numbers 5 and 25.
ghost use Rattle.std.specs.Prelude.{◌≡◌, not, ◌||◌};
ghost use Rattle.std.specs.Float.Ieee.{lt};
ghost use Rattle.float.specs.Helpers as helpers;
ghost use Rattle.state.specs.Coordinates as coordinates;

// A NaN is outside.
pub fn outside(low: f64, high: f64, x: f64) -> bool
    ensures { result ≡ coordinates.outside low high x }
{
    !(low <= x && x <= high)
}

// A finite limit is tested on either side: one that is not finite is then beyond it.
fn wrong_number(limit: f64, x: f64) -> bool
    ensures { result ≡ (not (helpers.is_finite x) || lt limit (helpers.absolute x)) }
{
    if float::is_finite(limit) {
        outside(-limit, limit, x)
    } else {
        !float::is_finite(x) || limit < float::absolute(x)
    }
}

// A coordinate is not finite or is over `limit` in magnitude. No test ends the loop, so several are done at a time.
pub fn wrong_coordinate(limit: f64, coords: &[f64]) -> bool
    ensures { result ≡ coordinates.wrong_coordinate limit coords.now }
{
    let mut wrong = false;
    for x in coords {
        wrong |= wrong_number(limit, *x);
    }
    wrong
}
