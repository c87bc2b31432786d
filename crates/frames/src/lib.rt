// What stands around a plate's shapes in a picture: view box, styles, and where the line of words is.
#![tactic(auto)]

mod boxes;
mod heads;

pub use boxes::{Frame, margin_of};
pub use heads::{put_caption, put_closing, put_head, put_plain_caption, put_plain_head};
