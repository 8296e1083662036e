// The sum of item weights over a family, by its members and by its nodes.
#![tactic(auto)]

pub mod calls;
pub mod tests;
pub mod walk;
