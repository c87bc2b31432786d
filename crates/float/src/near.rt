// The digits of a root by a guess in f64 arithmetic, which is looked at in whole numbers before it counts.
ghost use Rattle.std.specs.Prelude.{◌≡◌, ◌+◌, ◌*◌, ◌/◌, ◌%◌, ◌^◌, ◌<◌, ◌≤◌, true, IfSome};

use crate::LEAD;

// 2^32, its half and its double: a significand is taken apart there.
const WORD: u64 = 0x1_0000_0000;

const WORD_HALF: u64 = 0x8000_0000;

const WORD_TWICE: u64 = 0x2_0000_0000;

// Whether g is the whole number nearest to the root of a * 2^52: its square is within g of that number. The two are less than
// 2^59 apart, so their difference modulo 2^64 tells it.
fn is_nearest(a: u64, g: u64) -> bool
    requires { (a < 2 ^ 54) × (2 ^ 52 ≤ g) × (g < 2 ^ 53) × (g * g < a * 2 ^ 52 + 2 ^ 59) × (a * 2 ^ 52 < g * g + 2 ^ 59) }
    ensures { result ≡ true → (g * g < a * 2 ^ 52 + g) × (a * 2 ^ 52 ≤ g * g + g) }
{
    let h = g / WORD;
    let l = g % WORD;
    let over = std::num::wrapping_sub_u64(a % 4096 * LEAD, l * l);
    let apart = std::num::wrapping_sub_u64(over, h * l % WORD_HALF * WORD_TWICE);
    std::num::wrapping_add_u64(apart, g - 1) < g * 2
}

// A guess at the root of y, a number of this part, from the part's start and a polynomial in what is left. Nearly always it is
// the right one, and nothing rests on that.
fn guess(part: u64, y: f64) -> f64
    requires { part < 64 }
{
    // as: Rust has no From between u64 and usize
    let (root, reciprocal) = STARTS[part as usize];
    // y is the square of the root by 1 + e
    let e = (y - root * root) * reciprocal;
    let ee = e * e;
    let more = 0.5
        + e * -0.12500000000001976
        + ee * (0.06250000000001646
            + e * -0.03906249934091774
            + ee * (0.027343749450759267 + e * -0.020513308412294522 + ee * 0.01611786121228169));
    root + root * e * more
}

// The bits of 1 and of 1/2; of 1 and 2^-47 more, and of as much less; and 2^47, by which a number's bits tell its part.
const ONE_BITS: u64 = 0x3FF0_0000_0000_0000;

const ONE_HALF_BITS: u64 = 0x3FE0_0000_0000_0000;

const MORE_BITS: u64 = 0x3FF0_0000_0000_0020;

const LESS_BITS: u64 = 0x3FEF_FFFF_FFFF_FFC0;

const PART: u64 = 0x8000_0000_0000;

// The 53 digits of the root of a number from 1 up to 4, whose bits are `t` above those of 1, where the guess is right.
pub fn near_digits(t: u64) -> Option<u64>
    requires { t < 2 ^ 53 }
    ensures { IfSome result (λ g. (g < 2 ^ 53) × (g * g < (t % 2 ^ 52 + 2 ^ 52) * (t / 2 ^ 52 + 1) * 2 ^ 52 + g) × ((t % 2 ^ 52 + 2 ^ 52) * (t / 2 ^ 52 + 1) * 2 ^ 52 ≤ g * g + g)) }
{
    let y = f64::from_bits(t + ONE_BITS);
    let g = guess(t / PART, y);
    let square = g * g;
    if square < y * f64::from_bits(MORE_BITS) {
        if y * f64::from_bits(LESS_BITS) < square {
            let bits = f64::to_bits(g);
            if bits / LEAD == 1023 {
                let digits = bits - ONE_HALF_BITS;
                if is_nearest((t % LEAD + LEAD) * (t / LEAD + 1), digits) {
                    return Some(digits);
                }
            }
        }
    }
    None
}

// Where a guess starts: the root of a part's middle, to twelve binary digits behind the point, and the reciprocal of its square.
// The numbers from 1 up to 4 are in 64 parts, first the 32 from 1 up to 2, then those from 2 up to 4.
static STARTS: [(f64, f64); 64] = [
    (1.0078125, 0.9845562165735232),
    (1.023193359375, 0.9551785788603717),
    (1.038330078125, 0.9275324885121409),
    (1.05322265625, 0.9014873032545545),
    (1.068115234375, 0.8765239379591837),
    (1.08251953125, 0.8533526046018699),
    (1.096923828125, 0.8310880901908941),
    (1.111083984375, 0.81003955222969),
    (1.125, 0.7901234567901234),
    (1.138916015625, 0.770932935396082),
    (1.15234375, 0.7530709566216605),
    (1.166015625, 0.7355145352670668),
    (1.17919921875, 0.7191601832919683),
    (1.1923828125, 0.7033452930258827),
    (1.20556640625, 0.6880463966222881),
    (1.21826171875, 0.6737810691523327),
    (1.231201171875, 0.6596931273066303),
    (1.24365234375, 0.6465498490953505),
    (1.25634765625, 0.6335491785982238),
    (1.2685546875, 0.6214148267068705),
    (1.28076171875, 0.6096257788189727),
    (1.29296875, 0.5981690565073338),
    (1.304931640625, 0.5872519625713513),
    (1.31689453125, 0.5766310333416783),
    (1.328857421875, 0.5662956522103085),
    (1.340576171875, 0.5564382915491488),
    (1.35205078125, 0.5470335882189452),
    (1.363525390625, 0.5378653173988069),
    (1.375, 0.5289256198347108),
    (1.38623046875, 0.5203902122613857),
    (1.3974609375, 0.5120597569735922),
    (1.40869140625, 0.5039277443539013),
    (1.42529296875, 0.4922567891949838),
    (1.447021484375, 0.47758430000185886),
    (1.468505859375, 0.46371231798586104),
    (1.489501953125, 0.4507314331035932),
    (1.510498046875, 0.43828808450927714),
    (1.531005859375, 0.4266249932200379),
    (1.55126953125, 0.4155520938631843),
    (1.5712890625, 0.40503059043656314),
    (1.591064453125, 0.39502488375146794),
    (1.610595703125, 0.38550225941121097),
    (1.6298828125, 0.37643261088161417),
    (1.64892578125, 0.36778819320616246),
    (1.667724609375, 0.3595434035435818),
    (1.686279296875, 0.35167458523443973),
    (1.704833984375, 0.34406128883736364),
    (1.722900390625, 0.33688343840532997),
    (1.740966796875, 0.3299278850290163),
    (1.7587890625, 0.3232752733767193),
    (1.776611328125, 0.3168218649556303),
    (1.794189453125, 0.310644308587939),
    (1.8115234375, 0.3047278063948969),
    (1.82861328125, 0.29905857565316285),
    (1.845703125, 0.29354609333445314),
    (1.862548828125, 0.2882601884025916),
    (1.879150390625, 0.2831893540133451),
    (1.895751953125, 0.2782511550458598),
    (1.912109375, 0.2735108368694578),
    (1.928466796875, 0.2688906297558005),
    (1.944580078125, 0.264452901090734),
    (1.96044921875, 0.2601889241620387),
    (1.976318359375, 0.25602724899386187),
    (1.9921875, 0.25196462898885047),
];
