// Functions on f64 that the paving uses: what Rust's methods of f64 give, under definitions of this repository, and the square root and
// rounding half away from zero, which std's f64 has no methods for. Each takes every f64.
#![tactic(auto)]

ghost use Rattle.std.specs.Prelude.{◌≡◌, ◌+◌, ◌*◌, ◌/◌, ◌%◌, ◌^◌, ◌<◌, ◌≤◌, true};
ghost use Rattle.float.specs.Helpers as helpers;
ghost use Rattle.float.specs.Root.{root as root_of, whole_root};

use near::near_digits;

mod near;

pub fn absolute(x: f64) -> f64
    ensures { result ≡ helpers.absolute x }
{
    x.abs()
}

// Rust's `a.min(b)`; std's promises no sign where both are zeros.
pub fn lesser(a: f64, b: f64) -> f64
    ensures { result ≡ helpers.lesser a b }
{
    if a != a {
        return b;
    }
    if b < a { b } else { a }
}

// Rust's `a.max(b)`; std's promises no sign here either.
pub fn greater(a: f64, b: f64) -> f64
    ensures { result ≡ helpers.greater a b }
{
    if a != a {
        return b;
    }
    if a < b { b } else { a }
}

pub fn clamp_unit(x: f64) -> f64
    ensures { result ≡ helpers.clamp_unit x }
{
    x.clamp(0.0, 1.0)
}

pub fn is_finite(x: f64) -> bool
    ensures { result ≡ helpers.is_finite x }
{
    x.is_finite()
}

// `x.round() as usize`: below 2^63 the whole part of 2x says on which side of the half x lies.
pub fn round_away(x: f64) -> usize
    ensures { result ≡ helpers.round_away x }
{
    if x > 0.0 {
        if x < 9223372036854775808.0 {
            let halves = std::num::truncating_f64_to_u64(x + x);
            // as, here and below: Rust has no From between u64 and usize
            return (halves / 2 + halves % 2) as usize;
        }
        if x < 18446744073709551616.0 {
            return std::num::truncating_f64_to_u64(x) as usize;
        }
        return 18446744073709551615;
    }
    0
}

// 2^52: the weight of a significand's leading digit.
const LEAD: u64 = 0x10_0000_0000_0000;

// The root of a * 4^27, cut to a whole number: one binary digit a turn. `rest` is what the square of the digits
// so far leaves of the digits to the base 4 so far, and `left` holds the digits to come.
fn whole_root(a: u64) -> u64
    requires { a < 2 ^ 54 }
    ensures { result ≡ whole_root 54 (a * 4 ^ 27) }
{
    let mut left = a;
    let mut rest = 0u64;
    let mut q = 0u64;
    for _ in 0..54u64 {
        rest = rest * 4 + left / LEAD;
        left = left % LEAD * 4;
        let odd = q * 4 + 1;
        q = q * 2;
        if odd <= rest {
            rest = rest - odd;
            q = q + 1;
        }
    }
    q
}

// The bits of the root of s * 2^(w - 52) units of the smallest f64, for an s of 53 binary digits.
fn root_bits(s: u64, w: u64) -> u64
    requires { (s < 2 ^ 53) × (w < 2098) }
    ensures { result ≡ (w / 2 + 485) * 2 ^ 52 + (whole_root 54 (s * (w % 2 + 1) * 4 ^ 27) + 1) / 2 }
{
    let r = (whole_root(s * (w % 2 + 1)) + 1) / 2;
    (w / 2 + 485) * LEAD + r
}

// The same of the number with the bits `b`, where the digits near its root are right without finding them one by one.
fn normal_bits(b: u64) -> u64
    requires { b < 0x7FF0_0000_0000_0000 }
    ensures { result ≡ ((b / 2 ^ 52 + 51) / 2 + 485) * 2 ^ 52 + (whole_root 54 ((b % 2 ^ 52 + 2 ^ 52) * ((b / 2 ^ 52 + 51) % 2 + 1) * 4 ^ 27) + 1) / 2 }
{
    let w = b / LEAD + 51;
    if let Some(g) = near_digits((b + LEAD) % (LEAD * 2)) {
        return (w / 2 + 485) * LEAD + g;
    }
    root_bits(b % LEAD + LEAD, w)
}

// `x.sqrt()`
pub fn root(x: f64) -> f64
    ensures { result ≡ root_of x }
{
    if x > 0.0 {
        if x < 1.0 / 0.0 {
            let b = f64::to_bits(x);
            if b < LEAD {
                let z = u64::from(b.leading_zeros());
                return f64::from_bits(root_bits(b << (z - 11), 63 - z));
            }
            return f64::from_bits(normal_bits(b));
        }
        return x;
    }
    if x == 0.0 {
        return x;
    }
    0.0 / 0.0
}
