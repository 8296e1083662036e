// The size of a family by the ways that lead from it down to {{}}: quick where its parts stand side by side.
#![tactic(auto)]

pub mod hand;
pub mod window;
