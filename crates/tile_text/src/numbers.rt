// Numbers behind tabs.
ghost use Rattle.std.specs.Prelude.{◌≡◌, ℕ, ◌≤◌, ◌<◌, length};
ghost use Rattle.std.proofs.Math.Seq.{slice};
ghost use Rattle.text.specs.Decimal.{decimal_text};
ghost use Rattle.tile_text.specs.Fields.{NumbersReadIs};

use text::{Read, field_end, natural, store};

// The number that the bytes from `at` up to `end` are the writing of, or 0.
fn number_in(text: &[u8], at: usize, end: usize) -> u16
    requires { (at ≤ end) × (end ≤ length text.now) }
    ensures { (n : ℕ) → n < 65536 → slice at end text.now ≡ decimal_text n → result ≡ n }
{
    natural(text, at, end, 65535)
        .and_then(|n| u16::try_from(n).ok())
        .unwrap_or(0)
}

// Numbers behind tabs from `at` on, as long as they come, stored from place `from` on.
pub fn read_numbers(text: &[u8], at: usize, nodes: &mut [u16], from: usize) -> Read<usize>
    requires { (at ≤ length text.now) × (from ≤ at) }
    ensures { NumbersReadIs text.now at from nodes.old nodes.new result }
{
    let mut next = at;
    let mut count = 0usize;
    // by the place behind each number, which no index counts
    while next < text.len() {
        if text[next] != b'\t' {
            return Read { value: count, next };
        }
        let end = field_end(text, next + 1);
        store(nodes, from + count, number_in(text, next + 1, end));
        count += 1;
        next = end;
    }
    Read { value: count, next }
}
