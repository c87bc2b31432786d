// A job and its options, and the test of a job that every call makes: the numbers 1 to 6.
#![tactic(auto)]

ghost use Rattle.std.specs.Prelude.{◌≡◌};
ghost use Rattle.input.specs.Defaults as options;
ghost use Rattle.input.specs.Limit.{default_limit};

mod input;

use geometry::Outline;

// The Rust's `Options`, by value: margins, fractions and gaps in sizes h, the limit of passes, and `seam`; and the
// corner limit, which every corner value of a quad has to be above.
#[derive(Clone, Copy)]
pub struct Options {
    pub corner_margin: f64,
    pub min_edge_fraction: f64,
    pub front_gap: f64,
    pub max_row_rounds: u64,
    pub seam: bool,
    pub corner_limit: f64,
}

impl Options {
    pub const CORNER_MARGIN: f64 = 2.4;

    pub const MIN_EDGE: f64 = 0.08;

    pub const FRONT_GAP: f64 = 1.2;

    pub const MAX_ROW_ROUNDS: u64 = 32;

    pub const CORNER_LIMIT: f64 = 0.08715574274765817;
}

// A job: the outline's coordinates (x, then y, one after the other), the lengths of its loops (the outer one first, then the
// holes), the size h and the options.
#[derive(Clone, Copy)]
pub struct Job<'a> {
    pub coords: &'a [f64],
    pub loop_lengths: &'a [u16],
    pub h: f64,
    pub options: Options,
}

// A job as the calls go on with it once it has passed its test: its outline, whose loops lie within the coordinates, the size and
// the options.
#[derive(Clone, Copy)]
pub struct Accepted<'a> {
    pub outline: Outline<'a>,
    pub h: f64,
    pub options: Options,
}

// seam is false; the constants of `Options` are document 01's numbers.
impl Default for Options {
    ghost is_default = { λ o. o ≡ options.defaults };

    fn default() -> Options {
        Options {
            corner_margin: Options::CORNER_MARGIN,
            min_edge_fraction: Options::MIN_EDGE,
            front_gap: Options::FRONT_GAP,
            max_row_rounds: Options::MAX_ROW_ROUNDS,
            seam: false,
            corner_limit: Options::CORNER_LIMIT,
        }
    }
}

// The default options.
pub fn defaults() -> Options
    ensures { result ≡ options.defaults }
{
    Options::default()
}

// The corner limit of whatever has no job of its own: the corner test as C and Rust callers make it, and the pictures.
pub fn default_limit() -> f64
    ensures { result ≡ default_limit }
{
    Options::CORNER_LIMIT
}
