// What is read from a text, stored one behind the other: beyond the buffer's end nothing is stored.
ghost use Rattle.std.specs.Prelude.{◌≡◌, [], ◌∷◌, ◌*◌, ◌/◌, length, set, Float};
ghost use Rattle.std.proofs.lemmas.List.Edits.{sets};

// A number at place `i`.
pub fn store(numbers: &mut [u16], i: usize, n: u16)
    ensures { numbers.new ≡ set numbers.old i n }
{
    if i < numbers.len() {
        numbers[i] = n;
    }
}

// A point as pair `i` of a buffer of whole pairs.
pub fn store_point(coords: &mut [f64], i: usize, x: f64, y: f64)
    requires { length coords.old / 2 * 2 ≡ length coords.old }
    ensures { coords.new ≡ sets coords.old (i * 2) (x ∷ y ∷ []) }
{
    if i < coords.len() / 2 {
        coords[i * 2] = x;
        coords[i * 2 + 1] = y;
    }
}
