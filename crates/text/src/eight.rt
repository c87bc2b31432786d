// Eight bytes of a text as one word, the first byte the lowest: which of them are a tab or an LF, all at once.
ghost use Rattle.std.specs.Prelude.{◌≡◌, map, not, ◌==◌};
ghost use Rattle.std.specs.Int.{w64, to_le_bytes};
ghost use Rattle.std.specs.List.{list_any, position};
ghost use Rattle.text.specs.Fields.{ends_field};
ghost use Rattle.text.specs.Eight.{end_flag, word_of};

// The highest bit of each byte that is a tab or an LF, and no other bit. With 0x77 the low seven bits of a byte reach the highest bit from
// 9 on, with 0x75 from 11 on; no sum is above 255, so nothing is carried into the next byte.
#[tactic(auto, using(crate::proofs::Bytes::word_flags, crate::proofs::Bytes::word_test))]
fn end_flags(word: u64) -> u64
    ensures flags { result ≡ word_of (map end_flag (to_le_bytes w64 word)) }
    ensures test { not (result == 0) ≡ list_any ends_field (to_le_bytes w64 word) }
{
    let low = word & 0x7F7F_7F7F_7F7F_7F7F;
    let from_tab = low + 0x7777_7777_7777_7777;
    let behind_lf = low + 0x7575_7575_7575_7575;
    (from_tab ^ behind_lf) & !word & 0x8080_8080_8080_8080
}

// The place of the first tab or LF.
pub fn end_in(bytes: &[u8; 8]) -> Option<usize>
    ensures { result ≡ position ends_field bytes.now }
{
    let flags = end_flags(u64::from_le_bytes(*bytes));
    if flags == 0 {
        return None;
    }
    // as: below 8
    Some((flags.trailing_zeros() / 8) as usize)
}

// The same of two words, one after the other.
pub fn end_in_two(bytes: &[u8; 16]) -> Option<usize>
    ensures { result ≡ position ends_field bytes.now }
{
    let (words, _) = bytes.as_chunks::<8>();
    if let Some(n) = end_in(&words[0]) {
        return Some(n);
    }
    let n = end_in(&words[1])?;
    Some(8 + n)
}
