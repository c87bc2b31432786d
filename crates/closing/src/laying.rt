// The quads of closures, laid behind those of the state.
ghost use Rattle.std.specs.Prelude.{◌≡◌, map, ◌*◌, ◌+◌, ◌≤◌, length};
ghost use Rattle.std.specs.List.{flat_map};
ghost use Rattle.std.proofs.lemmas.List.Edits.{sets};
ghost use Rattle.state.specs.Limits.{front_limit};
ghost use Rattle.state.specs.State.{joined, quad_nodes};
ghost use Rattle.closing_search.specs.Closures.{closure_quads};

use closing_search::Closure;
use state::put_quad;

// How many quads the closures have.
pub fn count_quads(closures: &[Closure]) -> usize
    requires { length closures.now ≤ front_limit }
    ensures { result ≡ length (flat_map closure_quads closures.now) }
{
    closures.iter().map(|c| c.count()).sum()
}

// The quads of a closure, written from place `at` on.
#[tactic(auto, using(crate::proofs::Quads::two_quads), unfolding(state::specs::State::joined))]
fn put_closure(quads: &mut [u16], at: usize, closure: Closure)
    requires { at + length (closure_quads closure) * 4 ≤ length quads.old }
    ensures { quads.new ≡ sets quads.old at (joined (map quad_nodes (closure_quads closure))) }
{
    match closure {
        Closure::Kept => {}
        Closure::One(q) => {
            put_quad(quads, at, q.a, q.b, q.c, q.d);
        }
        Closure::Two(p, q) => {
            put_quad(quads, at, p.a, p.b, p.c, p.d);
            put_quad(quads, at + 4, q.a, q.b, q.c, q.d);
        }
    }
}

// The quads of all closures, written one after the other from place `at` on.
pub fn put_closures(quads: &mut [u16], at: usize, closures: &[Closure])
    requires { at + length (flat_map closure_quads closures.now) * 4 ≤ length quads.old }
    ensures { quads.new ≡ sets quads.old at (joined (map quad_nodes (flat_map closure_quads closures.now))) }
{
    let mut place = at;
    // a running place: `scan` would keep it inside a closure
    for &closure in closures {
        put_closure(quads, place, closure);
        place += closure.count() * 4;
    }
}
