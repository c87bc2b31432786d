// The line of words under a plate, and a picture of words alone.
#![tactic(auto)]

mod words;

pub use words::{put_done, put_refused, put_words};
