// The counts as eight u64, in document 01's order.
ghost use Rattle.std.specs.Prelude.{◌≡◌};
ghost use Rattle.state.specs.State.{no_counts};
ghost use Rattle.state.specs.Call.{answer_counts, answer_number};
ghost use Rattle.state.specs.Refusals.{told};
ghost use Rattle.exports_counts.specs.Calls.{count_list, counts_from};

use state::Counts;

pub fn counts_of(counts: &[u64; 8]) -> Counts
    ensures { result ≡ counts_from counts.now }
{
    let &[
        points,
        quads,
        fronts,
        row_quads,
        core_quads,
        row_rounds,
        passes_begun,
        laid,
    ] = counts;
    // as: Rust has no From between u64 and usize
    Counts {
        points: points as usize,
        quads: quads as usize,
        fronts: fronts as usize,
        row_quads: row_quads as usize,
        core_quads: core_quads as usize,
        row_rounds: row_rounds as usize,
        passes_begun: passes_begun as usize,
        laid: laid as usize,
    }
}

fn put_counts(counts: &mut [u64; 8], after: Counts)
    ensures { counts.new ≡ count_list after }
{
    // as: Rust has no From between usize and u64
    *counts = [
        after.points as u64,
        after.quads as u64,
        after.fronts as u64,
        after.row_quads as u64,
        after.core_quads as u64,
        after.row_rounds as u64,
        after.passes_begun as u64,
        after.laid as u64,
    ];
}

// The counts after an answer, `before` where it is a refusal, and its number, which may be any.
pub fn put_answer(counts: &mut [u64; 8], before: Counts, answer: Result<Counts, u32>) -> u32
    ensures { (result ≡ answer_number (told answer)) × (counts.new ≡ count_list (answer_counts before (told answer))) }
{
    match answer {
        Ok(after) => {
            put_counts(counts, after);
            0
        }
        Err(number) => {
            put_counts(counts, before);
            number
        }
    }
}

pub fn no_counts() -> Counts
    ensures { result ≡ no_counts }
{
    Counts::default()
}
