// What closes the fronts, found front by front.
ghost use Rattle.std.specs.Prelude.{◌≡◌, false, [], ℕ, ◌<◌, eqb, get_or, length, take};
ghost use Rattle.std.specs.List.{flat_map};
ghost use Rattle.state.specs.State.{cut};
ghost use Rattle.closing_search.specs.declared.front.Closure.TheVariants.{Kept};
ghost use Rattle.closing_search.specs.Closures.{closure_quads};
ghost use Rattle.closing_search.specs.Finding.{closures_of, stays};

use crate::front::{Closure, close_front};
use state::Fronts;

// What closes each of the fronts.
pub fn find_closures(fronts: &Fronts, limit: f64) -> [Closure; 16]
    ensures value { flat_map closure_quads (take (length fronts.now.lengths.now) result)
        ≡ closures_of limit fronts.now.points.now (cut fronts.now.lengths.now fronts.now.nodes.now) (length fronts.now.lengths.now) }
    ensures by_index { (i : ℕ) → i < length fronts.now.lengths.now
        → eqb (length (closure_quads (get_or result i Kept))) 0 ≡ stays limit fronts.now.points.now (get_or (cut fronts.now.lengths.now fronts.now.nodes.now) i []) }
{
    let mut closures = [Closure::Kept; 16];
    // A walk by hand: `scan` would keep the same sum inside a closure.
    let mut start = 0;
    for (li, &len) in fronts.lengths.iter().enumerate() {
        let size = usize::from(len);
        closures[li] = close_front(&fronts.ring(start, size), limit);
        start += size;
    }
    closures
}
