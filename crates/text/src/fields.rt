// Where a field of a text ends, and the words of its language, which `behind` looks for. A text is only read: each function answers the
// place behind what it read, as document 01's definitions go on by what is left of a text, so no reader holds text and place together.
ghost use Rattle.std.specs.Prelude.{◌≡◌, ◌≤◌, length, drop};
ghost use Rattle.text.specs.Fields.{field, field_end, behind, place_behind};

use crate::eight::{end_in, end_in_two};

// How many of the bytes stand before the first tab or LF, all of them where there is none: one byte a turn.
fn before_end_singly(bytes: &[u8]) -> usize
    ensures { result ≡ length (field bytes.now) }
{
    bytes
        .iter()
        .position(|byte| *byte == b'\t' || *byte == b'\n')
        .unwrap_or(bytes.len())
}

// The same of a few bytes: eight as one number, where there are eight, and the others singly.
#[inline(never)]
fn before_end_near(bytes: &[u8]) -> usize
    ensures { result ≡ length (field bytes.now) }
{
    let Some((word, last)) = bytes.split_first_chunk::<8>() else {
        return before_end_singly(bytes);
    };
    match end_in(word) {
        Some(n) => n,
        None => 8 + before_end_singly(last),
    }
}

// The same of many bytes, twice eight a turn.
#[inline(never)]
fn before_end_far(bytes: &[u8]) -> usize
    ensures { result ≡ length (field bytes.now) }
{
    let (pairs, last) = bytes.as_chunks::<16>();
    for (i, pair) in pairs.iter().enumerate() {
        if let Some(n) = end_in_two(pair) {
            return i * 16 + n;
        }
    }
    pairs.len() * 16 + before_end_near(last)
}

// The same of any bytes. Most fields of a job end in the first eight, which are looked at here; what comes behind them, and a text's last
// bytes, are left to functions of their own, so that this one is small where it is called.
fn before_end(bytes: &[u8]) -> usize
    ensures { result ≡ length (field bytes.now) }
{
    let Some((word, rest)) = bytes.split_first_chunk::<8>() else {
        return before_end_near(bytes);
    };
    match end_in(word) {
        Some(n) => n,
        None => 8 + before_end_far(rest),
    }
}

// The first place from `at` on that holds a tab or an LF, or the text's end.
pub fn field_end(text: &[u8], at: usize) -> usize
    requires { at ≤ length text.now }
    ensures { result ≡ field_end text.now at }
{
    at + before_end(&text[at..])
}

// The place behind `word`, where it stands in the text from `at` on.
pub fn behind(text: &[u8], at: usize, word: &[u8]) -> Option<usize>
    requires { at ≤ length text.now }
    ensures { result ≡ place_behind word.now at (behind word.now (drop at text.now)) }
{
    if text[at..].starts_with(word) {
        Some(at + word.len())
    } else {
        None
    }
}
