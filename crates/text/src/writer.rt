// Text written into a lent buffer: the buffer, and the place behind what has been written. Who takes a `Writer` says in two clauses what
// was put (`Wrote`) and that the buffer is the same one (`Same`): the check finds the second alone. How much room it asks for is its own
// clause, since it differs. Digits are put one by one, and texts byte by byte, and not by `write!`: what a `Display` prints is said of a
// `String`, which takes memory, and not of a lent buffer.
ghost use Rattle.std.specs.Prelude.{◌≡◌, [], ◌∷◌, ◌-◌, ◌≤◌, length, replicate};
ghost use Rattle.std.proofs.lemmas.List.Edits.{sets};
ghost use Rattle.text.specs.Decimal.{decimal_text};
ghost use Rattle.text.specs.Hex.{hex_text};
ghost use Rattle.text.specs.Writing.{Fits, Same, Wrote};

use crate::hexadecimal::hex_digit;

#[derive(Drop)]
pub struct Writer<'a> {
    pub out: &'a mut [u8],
    pub at: usize,
}

// How many digits `n` has. Most numbers are those of nodes, below 100,000.
fn places(n: u64) -> usize
    ensures { result ≡ length (decimal_text n) }
{
    if n < 10 {
        return 1;
    }
    if n < 100 {
        return 2;
    }
    if n < 1000 {
        return 3;
    }
    if n < 10000 {
        return 4;
    }
    let mut k = 5usize;
    let mut rest = n / 10000;
    // by the digits that are left, which no index counts
    while 10 <= rest {
        rest /= 10;
        k += 1;
    }
    k
}

impl Writer<'_> {
    pub fn byte(&mut self, b: u8)
        requires { Fits self.old (b ∷ []) }
        ensures put { Wrote self.old (b ∷ []) self.new }
        ensures same { Same self.old self.new }
    {
        self.out[self.at] = b;
        self.at += 1;
    }

    pub fn bytes(&mut self, word: &[u8])
        requires { Fits self.old word.now }
        ensures put { Wrote self.old word.now self.new }
        ensures same { Same self.old self.new }
    {
        let end = self.at + word.len();
        self.out[self.at..end].copy_from_slice(word);
        self.at = end;
    }

    pub fn decimal(&mut self, n: u64)
        requires { Fits self.old (decimal_text n) }
        ensures put { Wrote self.old (decimal_text n) self.new }
        ensures same { Same self.old self.new }
    {
        let end = self.at + places(n);
        let mut rest = n;
        // the lowest digit first, since it is known first, and by place: after `iter_mut().rev()` a proof knows nothing of what was written
        for i in (self.at + 1..end).rev() {
            // as, here and below: below 10, so the error of try_from could not occur
            self.out[i] = b'0' + (rest % 10) as u8;
            rest /= 10;
        }
        self.out[self.at] = b'0' + rest as u8;
        self.at = end;
    }

    pub fn hex(&mut self, bits: u64)
        requires { Fits self.old (hex_text bits) }
        ensures put { Wrote self.old (hex_text bits) self.new }
        ensures same { Same self.old self.new }
    {
        let mut rest = bits;
        // from the end, as the digits come, and by place: after `iter_mut().rev()` a proof knows nothing of what was written
        for i in (0..16).rev() {
            self.out[self.at + i] = hex_digit(rest % 16);
            rest /= 16;
        }
        self.at += 16;
    }
}

// Every byte from `at` on becomes 0. No method: who fills the rest may hold the buffer alone.
pub fn put_zeros(out: &mut [u8], at: usize)
    requires { at ≤ length out.old }
    ensures { out.new ≡ sets out.old at (replicate (length out.old - at) 0) }
{
    out[at..].fill(0);
}
