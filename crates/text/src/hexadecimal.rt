// 16 hexadecimal digits: the number that they spell, one digit, and the bits of an f64, which they show.
ghost use Rattle.std.specs.Prelude.{◌≡◌, ◌+◌, ◌≤◌, ◌<◌, length};
ghost use Rattle.std.proofs.Math.Seq.{slice};
ghost use Rattle.std.specs.Float.{binary64};
ghost use Rattle.std.specs.Float.Ieee.{to_bits};
ghost use Rattle.text.specs.Hex.{hex_digit, hex_value, hex_spelled};

fn hex_value(d: u8) -> u64
    ensures { (result ≡ hex_value d) × (result < 16) }
{
    if d < b'0' {
        return 0;
    }
    if d <= b'9' {
        return u64::from(d - b'0');
    }
    if d <= b'F' {
        return u64::from(d - b'7');
    }
    0
}

// The number that the 16 bytes from `at` on spell.
pub fn hex(text: &[u8], at: usize) -> u64
    requires { at + 16 ≤ length text.now }
    ensures { result ≡ hex_spelled 0 (slice at (at + 16) text.now) }
{
    let mut value = 0u64;
    for digit in &text[at..at + 16] {
        value = value * 16 + hex_value(*digit);
    }
    value
}

pub fn hex_digit(d: u64) -> u8
    requires { d < 16 }
    ensures { result ≡ hex_digit d }
{
    // as, twice: below 16, so the error of try_from could not occur
    if d < 10 {
        b'0' + d as u8
    } else {
        b'7' + d as u8
    }
}

// `f64::to_bits` says nothing of a NaN: this pattern is the definition's.
pub fn bits_of(x: f64) -> u64
    ensures { result ≡ to_bits binary64 x }
{
    if x == x {
        return f64::to_bits(x);
    }
    0x7FF8_0000_0000_0000
}
