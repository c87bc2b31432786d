// The text of a job from standard input, its picture as SVG to standard output, and nothing of its own. Where standard input cannot
// be read, nothing is printed there, and standard error says so; the same when the picture could not be written whole.
#![tactic(auto)]

// The buffers: one byte more than a job's text may have, since a longer one is cut there and is unreadable all the same; and what
// `draw_text` asks for.
fn main(rt: HostRuntime) {
    standard::turn::<65537, 1638400, _>(&rt, |text, out| picture::draw_text(text, out));
}
