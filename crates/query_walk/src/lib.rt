// The parts of a family, entered once each in a table with their sizes.
#![tactic(auto)]

pub mod sizes;
pub mod walk;
