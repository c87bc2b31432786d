// The calls on states for C and Rust callers. None requires anything.
#![tactic(auto)]

mod calls;
