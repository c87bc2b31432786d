// The `done` line: the eight counts of a state.
ghost use Rattle.std.specs.Prelude.{◌≡◌, ◌≤◌, length};
ghost use Rattle.state.specs.declared.Counts.{Counts};
ghost use Rattle.answer_text.specs.AnswerText.{count_numbers};
ghost use Rattle.tile_text.specs.Fields.{DoneReadIs};

use crate::numbers::read_numbers;
use crate::rings::behind_end;
use state::Counts;
use text::{Read, behind};

// Eight numbers as counts.
fn counted(numbers: [u16; 8]) -> Counts
    ensures { (c : Counts) → numbers ≡ count_numbers c → result ≡ c }
{
    let [
        points,
        quads,
        fronts,
        row_quads,
        core_quads,
        row_rounds,
        passes_begun,
        laid,
    ] = numbers.map(usize::from);
    Counts {
        points,
        quads,
        fronts,
        row_quads,
        core_quads,
        row_rounds,
        passes_begun,
        laid,
    }
}

// The `done` line at `at`. Where none stands there, no place is passed.
pub fn read_done(text: &[u8], at: usize) -> Read<Counts>
    requires { at ≤ length text.now }
    ensures { DoneReadIs text.now at result }
{
    let mut numbers = [0u16; 8];
    let Some(first) = behind(text, at, b"done") else {
        return Read {
            value: counted(numbers),
            next: at,
        };
    };
    let line = read_numbers(text, first, &mut numbers, 0);
    Read {
        value: counted(numbers),
        next: behind_end(text, line.next),
    }
}
