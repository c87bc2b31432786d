// `p` lines: the bits of x and y, 16 hexadecimal digits each.
ghost use Rattle.std.specs.Prelude.{◌≡◌, false, ◌≤◌, length};
ghost use Rattle.std.specs.Float.{binary64};
ghost use Rattle.std.specs.Float.Ieee.{nan_bits, of_bits};
ghost use Rattle.state.specs.Limits.{points_length};
ghost use Rattle.tile_text.specs.Fields.{PointsReadIs};

use text::{Read, hex, store_point};

// The f64 of a pattern; 0 for that of a NaN, which no list has.
fn coordinate(bits: u64) -> f64
    ensures { nan_bits binary64 bits ≡ false → result ≡ of_bits binary64 bits }
{
    if 0x7FF0_0000_0000_0000 < bits % 0x8000_0000_0000_0000 {
        return 0.0;
    }
    f64::from_bits(bits)
}

// `p` lines from `at` on, as long as they come; each has 36 bytes.
pub fn read_points(text: &[u8], at: usize, points: &mut [f64]) -> Read<usize>
    requires { (at ≤ length text.now) × (length points.old ≡ points_length) }
    ensures { PointsReadIs text.now at points.old points.new result }
{
    let mut count = 0usize;
    for line in text[at..].chunks_exact(36) {
        if line[0] != b'p' {
            break;
        }
        let x = coordinate(hex(line, 2));
        let y = coordinate(hex(line, 19));
        store_point(points, count, x, y);
        count += 1;
    }
    Read {
        value: count,
        next: at + count * 36,
    }
}
