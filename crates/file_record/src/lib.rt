// The record of a part in a file: its fields, one record written.
#![tactic(auto)]

pub mod field;
pub mod write;
