// The text of a tile list in, the same text or a refusal out: what the program `recheck` does between its reading and its writing.
#![tactic(auto)]

mod error;
mod list;
mod quads;
mod tests;
mod verdict;
mod writing;

ghost use Rattle.std.specs.Prelude.{◌≡◌, ◌≤◌, length};
ghost use Rattle.text.specs.Putting.{Put};
ghost use Rattle.answer_text.specs.AnswerText.{refused_text};
ghost use Rattle.answer_text.specs.Fits.{text_limit};
ghost use Rattle.tile_list.specs.Recheck.{list_room, recheck_text, recheck_call, rechecked};
ghost use Rattle.tile_list.specs.Steps.{ReadFrom, Stands, number_of};

use crate::error::ListError;
use crate::list::{HeldList, fit_points};
use answer_text::put_refused;
use state::{Buffers, fit_nodes};
use text::{Writer, put_zeros};
use tile_text::{ListBuffers, read_list};

// The text of a refusal from the first place on.
fn put_error(out: &mut [u8], error: ListError) -> usize
    requires { text_limit ≤ length out.old }
    ensures put { Put out.old 0 (refused_text (number_of error)) out.new result }
    ensures upper_bound { result ≤ text_limit }
{
    let mut w = Writer { out, at: 0 };
    put_refused(&mut w, error.number());
    w.at
}

// The answer's text from the first place on, for a list that was read. Behind it anything may stand: a list that is refused late
// was written there.
fn put_verdict(out: &mut [u8], input: &[u8], list: &HeldList) -> usize
    requires room { list_room ≤ length out.old }
    requires read { ReadFrom input.now list.now }
    ensures { Stands (recheck_text input.now) out.new result }
{
    if !list.is_readable(out, input) {
        return put_error(out, ListError::Unreadable);
    }
    match list.check() {
        Ok(()) => input.len(),
        Err(error) => put_error(out, error),
    }
}

fn put_rechecked(out: &mut [u8], input: &[u8]) -> usize
    requires { list_room ≤ length out.old }
    ensures { Stands (recheck_text input.now) out.new result }
{
    let mut loop_nodes = [0u16; 2048];
    let mut loop_lengths = [0u16; 16];
    let mut points = [0.0f64; 8192];
    let mut quads = [0u16; 16384];
    let mut quad_lengths = [0u16; 4096];
    let mut front_nodes = [0u16; 2048];
    let mut front_lengths = [0u16; 16];
    let mut into = ListBuffers {
        loop_nodes: &mut loop_nodes,
        loop_lengths: &mut loop_lengths,
        points: &mut points,
        quads: &mut quads,
        quad_lengths: &mut quad_lengths,
        front_nodes: &mut front_nodes,
        front_lengths: &mut front_lengths,
    };
    let read = read_list(input, &mut into);
    let list = HeldList {
        loop_nodes: fit_nodes(&loop_nodes),
        loop_lengths: &loop_lengths,
        state: Buffers {
            points: fit_points(&points),
            quads: &quads,
            front_nodes: &front_nodes,
            front_lengths: &front_lengths,
        },
        quad_lengths: &quad_lengths,
        loops: read.loops,
        counts: read.counts,
    };
    put_verdict(out, input, &list)
}

// A buffer of fewer than 286,720 bytes is left alone, and the result is 0; no list is that long. Otherwise the answer's text,
// zeros behind it, and the text's length, whatever the buffer held.
// `pave_text`, `draw_text` and `recheck` differ in their buffer's length and in what writes it; C's names for the first and last need each.
pub fn recheck(input: &[u8], out: &mut [u8]) -> usize
    ensures { rechecked result out.new ≡ recheck_call input.now out.old }
{
    if out.len() < 286720 {
        return 0;
    }
    let end = put_rechecked(out, input);
    put_zeros(out, end);
    end
}
