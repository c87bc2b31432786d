// Tiles, coloured by their least corner values.
ghost use Rattle.std.specs.Prelude.{◌≡◌, ◌/◌, length};
ghost use Rattle.state.specs.State.{quads_of};
ghost use Rattle.text.specs.Writing.{Fits, Same, Wrote};
ghost use Rattle.shapes.specs.Shapes as shapes;

use crate::least::worst_of;
use crate::rings::put_shape;
use text::Writer;

fn step_of(limit: f64, v: f64) -> u8
    ensures { result ≡ shapes.step_of limit v }
{
    let step = float::round_away((v - limit) / (1.0 - limit) * 10.0 - 0.5);
    // as: at most 9, so the error of try_from could not occur
    step.min(9) as u8
}

fn put_tile(w: &mut Writer, limit: f64, points: &[f64], nodes: &[u16; 4])
    requires { Fits w.old (shapes.tile_text limit points.now (shapes.quad_at nodes.now)) }
    ensures put { Wrote w.old (shapes.tile_text limit points.now (shapes.quad_at nodes.now)) w.new }
    ensures same { Same w.old w.new }
{
    let step = step_of(limit, worst_of(points, nodes));
    put_shape(w, b'A' + step, points, nodes);
}

pub fn put_tiles(w: &mut Writer, limit: f64, points: &[f64], quads: &[u16])
    requires { Fits w.old (shapes.tiles_text limit points.now (quads_of (length quads.now / 4) quads.now)) }
    ensures put { Wrote w.old (shapes.tiles_text limit points.now (quads_of (length quads.now / 4) quads.now)) w.new }
    ensures same { Same w.old w.new }
{
    let (tiles, _) = quads.as_chunks::<4>();
    for nodes in tiles {
        put_tile(w, limit, points, nodes);
    }
}
