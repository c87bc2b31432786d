// A tile list from standard input, the sampled loops' `s` lines and then what `pave` printed; the same bytes to standard output where
// the list is accepted, otherwise `refused` and the number. Where standard input cannot be read, nothing is printed there, and standard
// error says so; the same when the answer could not be written whole.
#![tactic(auto)]

// The buffers: one byte more than `recheck` asks for, since no list is as long as that and a longer text, cut there, is unreadable all
// the same; and what `recheck` asks for.
fn main(rt: HostRuntime) {
    standard::turn::<286721, 286720, _>(&rt, tile_list::recheck);
}
