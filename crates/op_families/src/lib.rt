// Union, Intsec and Diff: the recursion, the calls.
#![tactic(auto)]

pub mod calls;
pub mod recursion;
