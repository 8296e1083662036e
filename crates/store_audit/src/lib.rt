// Audit: the tests of the nodes, of their slots and of the words past them, and the call.
#![tactic(auto)]

pub mod audit;
pub mod blank;
pub mod nodes;
pub mod slots;
