// A node found in the unique table or added to it; Getnode of document 001.
#![tactic(auto)]

pub mod getnode;
pub mod unique;
