// Plates that the Rust answered, run through the port. What is printed is held to the file `stdout`, which oracle/record writes from
// the Rust's answers, with the words of `args` and the texts of `data`.
#![tactic(auto)]

mod jobs;
mod words;

use std::io;

fn main(rt: HostRuntime) -> io::Result<()> {
    words::answer_words(&rt)?;
    jobs::jobs(&rt);
    Ok(())
}
