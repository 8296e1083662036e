// The unique table on bare words: mixing numbers, start slots, the probe; the slots of the newest nodes.
#![tactic(auto)]

pub mod mix;
pub mod own_slots;
pub mod probe;
pub mod start;
