// A field read as a number.
ghost use Rattle.std.specs.Prelude.{◌≡◌, ◌<◌, ◌≤◌, length};
ghost use Rattle.std.proofs.Math.Seq.{slice};
ghost use Rattle.text.specs.Decimal.{natural_of};
ghost use Rattle.text.specs.Number.{number_in, spelling};

// The number that bytes spell, where all are digits.
fn spelled(digits: &[u8]) -> Option<u32>
    requires { length digits.now ≤ 7 }
    ensures { number_in result ≡ spelling 0 digits.now }
{
    let mut value = 0u32;
    for digit in digits {
        if !digit.is_ascii_digit() {
            return None;
        }
        value = value * 10 + u32::from(*digit - b'0');
    }
    Some(value)
}

// The number that the bytes from `at` up to `end` are the writing of, at most `most`. A number below 10,000,000 has at most 7 digits, so no more are looked at.
pub fn natural(text: &[u8], at: usize, end: usize, most: u32) -> Option<u32>
    requires { (at ≤ end) × (end ≤ length text.now) × (most < 10000000) }
    ensures { number_in result ≡ natural_of most (slice at end text.now) }
{
    let field = &text[at..end];
    if field.is_empty() {
        return None;
    }
    if 7 < field.len() {
        return None;
    }
    if field[0] == b'0' {
        // a leading zero
        if field.len() != 1 {
            return None;
        }
    }
    let value = spelled(field)?;
    if most < value {
        return None;
    }
    Some(value)
}
