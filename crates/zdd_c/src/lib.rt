// The public calls for C and Rust: each function hands on the answer of one call.
#![tactic(auto)]

pub mod asking;
pub mod auditing;
pub mod filing;
pub mod making;
pub mod placing;
pub mod weighing;
