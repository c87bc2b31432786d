// A fan that stands, laid on the one front.
ghost use Rattle.std.specs.Prelude.{◌≡◌, [], get_or};
ghost use Rattle.state.specs.State.{reading, written};
ghost use Rattle.state.specs.Lent.{Same, held_in};
ghost use Rattle.state.specs.Sound.{Clean, Sound};
ghost use Rattle.fan.specs.Laid.{Room, laid_fan};

use crate::quads::put_fan;
use fan_search::Fan;
use geometry::{NodePoints, Point, put_point};
use state::{Counts, Lent};

// Writes the fan with the centre `p`: the quads and the centre behind the others, and zeros for the front, which goes; answers the
// counts after it.
pub fn lay_fan(lent: &mut Lent, counts: Counts, p: Point) -> Counts
    requires sound { Sound (held_in lent.old counts) }
    requires clean { Clean (held_in lent.old counts) }
    requires room { Room (held_in lent.old counts) }
    ensures same { Same lent.old lent.new }
    ensures laid { held_in lent.new result ≡ written (laid_fan (reading (held_in lent.old counts)) (get_or (reading (held_in lent.old counts)).fronts 0 []) p) }
{
    let first = counts.points;
    let laid = counts.quads;
    let n = usize::from(lent.front_lengths[0]);
    let points = &mut *lent.points;
    let front_nodes = &mut *lent.front_nodes;
    let fan = Fan {
        front: NodePoints {
            pts: &points[..first * 2],
            nodes: &front_nodes[..n],
        },
        centre: p,
    };
    put_fan(lent.quads, laid * 4, &fan);
    put_point(points, first, p.x, p.y);
    front_nodes.fill(0);
    lent.front_lengths.fill(0);
    let m = n / 2;
    Counts {
        points: first + 1,
        quads: laid + m,
        fronts: 0,
        core_quads: counts.core_quads + m,
        ..counts
    }
}
