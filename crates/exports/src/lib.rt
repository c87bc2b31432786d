// The calls on jobs for C and Rust callers. None requires anything.
#![tactic(auto)]

mod calls;
