// The rules of paving, and the demands proved of them: see specs/ and proofs/. The calls that follow these rules stand in the crates above.

#![tactic(auto)]

// What projecting a front's node inward answers: a point with its two coordinates, or nothing. No Option of a point: this enum is one of
// the forms that document 01 names (docs/DECISIONS.md).
#[derive(Clone, Copy)]
pub enum Projection {
    At(f64, f64),
    Nothing,
}
