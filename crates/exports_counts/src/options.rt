// The options, which C and Rust callers pass one by one.
ghost use Rattle.std.specs.Prelude.{◌≡◌};
ghost use Rattle.exports_counts.specs.Calls.{options_of};

use input::Options;

pub fn options_of(
    corner_margin: f64,
    min_edge_fraction: f64,
    front_gap: f64,
    max_row_rounds: u64,
    seam: bool,
    corner_limit: f64,
) -> Options
    ensures { result ≡ options_of corner_margin min_edge_fraction front_gap max_row_rounds seam corner_limit }
{
    Options {
        corner_margin,
        min_edge_fraction,
        front_gap,
        max_row_rounds,
        seam,
        corner_limit,
    }
}
