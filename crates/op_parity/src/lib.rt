// Even and Odd: the recursion, the calls.
#![tactic(auto)]

pub mod calls;
pub mod recursion;
