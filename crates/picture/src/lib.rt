// A job's text, paved and drawn as SVG.
#![tactic(auto)]

mod drawing;
mod plates;

pub use drawing::draw_text;
