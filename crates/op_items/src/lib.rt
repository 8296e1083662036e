// Subset1, Subset0 and Change: the recursion, the calls.
#![tactic(auto)]

pub mod calls;
pub mod recursion;
