// A fan tried: the numbers 24, 26, 21 and 27, in that order. Nothing lent is written here.
ghost use Rattle.std.specs.Prelude.{◌≡◌, ◌%◌, ◌≤◌, length};
ghost use Rattle.geometry.specs.Domain.{rings};
ghost use Rattle.geometry.specs.Rings.{node_ring};
ghost use Rattle.state.specs.Limits.{quad_limit};
ghost use Rattle.state.specs.Outcome.{outcome};
ghost use Rattle.state.specs.Refusals.{answered};
ghost use Rattle.rules.specs.Fan.{centre};
ghost use Rattle.fan_search.specs.Numbers.{fan_number};

use crate::Centre;
use crate::grid::centre_of;
use crate::quads::Fan;
use geometry::{NodePoints, Outline, Point};
use state::{Refusal, is_full};

// The centre of the fan of a front, where `quads` quads are laid, if the fan stands.
pub fn try_fan(
    outline: &Outline,
    front: &NodePoints,
    quads: usize,
    limit: f64,
) -> Result<Point, Refusal>
    requires { (length front.now.pts.now % 2 ≡ 0) × (quads ≤ quad_limit) }
    ensures { let loops = rings outline.now.coords.now outline.now.loop_lengths.now in
        answered result ≡ outcome (fan_number limit loops front.now.pts.now front.now.nodes.now quads)
        (centre loops (node_ring front.now.pts.now front.now.nodes.now)).point }
{
    let n = front.nodes.len();
    if n < 4 || n % 2 == 1 {
        return Err(Refusal::FanFront);
    }
    let Centre {
        point,
        clearance,
        ..
    } = centre_of(outline, front);
    if !float::is_finite(clearance) || clearance <= 0.0 {
        return Err(Refusal::Centre);
    }
    if is_full(front.pts.len() / 2 + 1, quads + n / 2) {
        return Err(Refusal::Full);
    }
    let fan = Fan {
        front: *front,
        centre: point,
    };
    if !fan.all_pass(limit) {
        return Err(Refusal::Corner);
    }
    Ok(point)
}
