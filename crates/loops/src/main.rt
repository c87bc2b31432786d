// The text of a job from standard input, an `s` line for each of its sampled loops to standard output, or `refused` and the number.
// Where standard input cannot be read, nothing is printed there, and standard error says so; the same when the lines could not be
// written whole.
#![tactic(auto)]

// The buffers: one byte more than a job's text may have, and what an answer may have.
fn main(rt: HostRuntime) {
    standard::turn::<65537, 270336, _>(&rt, |text, out| loop_text::put_loops(out, text));
}
