// The text of an answer, put into a lent buffer: document 01's lines for a state, or its line for a refusal.
#![tactic(auto)]

mod answer;
mod lines;

pub use answer::{put_answer, put_held, put_refused};
pub use lines::put_rings;
