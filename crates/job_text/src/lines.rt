// The lines of a job's text: a size, and a point.
ghost use Rattle.std.specs.Prelude.{◌≡◌, ◌≤◌, length, drop};
ghost use Rattle.job_text.specs.Reading as reading;
ghost use Rattle.job_text.specs.Answers.{measure_of, as_whole, line_of};

use geometry::Point;
use text::{Read, behind, field_end, natural};

// The coordinate in the field from `at` on. Inlined: the answer of a call goes through memory, and the
// next search waits for its place (docs/changes/04-words.md).
#[inline(always)]
fn read_whole(text: &[u8], at: usize) -> Option<Read<f64>>
    requires { at ≤ length text.now }
    ensures { result ≡ measure_of text.now (reading.read_whole (drop at text.now)) }
{
    let next = field_end(text, at);
    if at < next {
        if text[at] == b'-' {
            let n = natural(text, at + 1, next, 1000000)?;
            if n == 0 {
                return None;
            }
            let value = -f64::from(n);
            return Some(Read { value, next });
        }
    }
    let n = natural(text, at, next, 1000000)?;
    let value = f64::from(n);
    Some(Read { value, next })
}

// An `at` line from `at` on.
pub fn read_at(text: &[u8], at: usize) -> Option<Read<Point>>
    requires { at ≤ length text.now }
    ensures { result ≡ line_of text.now (reading.read_at (drop at text.now)) }
{
    let x_at = behind(text, at, b"at\t")?;
    let x = read_whole(text, x_at)?;
    let y_at = behind(text, x.next, b"\t")?;
    let y = read_whole(text, y_at)?;
    let next = behind(text, y.next, b"\n")?;
    Some(Read {
        value: Point {
            x: x.value,
            y: y.value,
        },
        next,
    })
}

// The size in the field from `at` on.
// `read_whole` ends as it does: what each refuses has an edit of its own, and a function for the lines that they share would be no
// shorter than they are.
pub fn read_size(text: &[u8], at: usize) -> Option<Read<f64>>
    requires { at ≤ length text.now }
    ensures { result ≡ measure_of text.now (as_whole (reading.read_size (drop at text.now))) }
{
    let next = field_end(text, at);
    let n = natural(text, at, next, 1000000)?;
    if n == 0 {
        return None;
    }
    let value = f64::from(n);
    Some(Read { value, next })
}
