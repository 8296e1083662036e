// The cases of the operations that need no recursion.
#![tactic(auto)]

pub mod families;
pub mod items;
