// How far a loop's nodes are to stand apart.

// The length asked for between nodes, and how much of it a sharp corner takes from each of its sides.
#[derive(Clone, Copy)]
pub struct Spacing {
    pub h: f64,
    pub corner_margin: f64,
}
