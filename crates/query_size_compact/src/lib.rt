// Size in two words for each part of the asked family.
#![tactic(auto)]

pub mod call;
