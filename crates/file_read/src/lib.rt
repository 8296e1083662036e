// A file read into the local table: its head, its records, and the walk that tests their order.
#![tactic(auto)]

pub mod file;
pub mod order;
pub mod read;
