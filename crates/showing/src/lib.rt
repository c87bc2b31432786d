// What is printed beside the text of `pave_text`: a line, a refusal, and a state. Output that cannot be written is lost.
#![tactic(auto)]

ghost use Rattle.std.specs.Prelude.{◌≡◌, ◌+◌, ◌≤◌, length};
ghost use Rattle.state.specs.State.{lengths};
ghost use Rattle.state.specs.Call.{lent};
ghost use Rattle.state.specs.Lent.{held_of};
ghost use Rattle.text.specs.Writing.{Same, Wrote};
ghost use Rattle.answer_text.specs.Fits.{text_limit};
ghost use Rattle.showing.specs.Shown.{shown};

use answer_text::put_held;
use state::{Buffers, Counts};
use text::Writer;

pub fn line(rt: &impl Print, text: &[u8]) {
    let _ = rt.write_all(text);
    let _ = rt.write_all(b"\n");
}

pub fn show_refused(rt: &impl Print, number: u32) {
    let _ = println!(rt; "refused\t{number}");
}

// The text of a state, and nothing for one that number 25 refuses, whatever the buffers hold. That buffers have the lengths of a state
// is a clause here and in `calls`, and no fact of their types: a call is told of other lengths by number 1.
fn put_shown(w: &mut Writer, held: &Buffers, counts: Counts)
    requires room { w.old.at + text_limit ≤ length w.old.out.now }
    requires lengths { lengths (held_of held.now counts) ≡ lent }
    ensures put { Wrote w.old (shown (held_of held.now counts)) w.new }
    ensures upper_bound { w.new.at ≤ w.old.at + text_limit }
    ensures same { Same w.old w.new }
{
    if held.is_wrong(counts) {
        return;
    }
    put_held(w, held, counts);
}

pub fn show_state(rt: &impl Print, held: &Buffers, counts: Counts)
    requires { lengths (held_of held.now counts) ≡ lent }
{
    let mut out = standard::answer_buffer();
    let mut w = Writer {
        out: &mut out,
        at: 0,
    };
    put_shown(&mut w, held, counts);
    let n = w.at;
    let _ = rt.write_all(&out[..n]);
}
