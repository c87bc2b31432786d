// The root and the geometry for C and Rust callers. No call requires anything: where a function below asks for lengths or
// node numbers that fit, its call tests them first, and answers NaN or false where they do not.
#![tactic(auto)]

mod fronts;
mod measures;
mod outline;
