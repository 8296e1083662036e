// Numbers of any size, the weight of an item, and the sizes and sums of weights of the nodes.
#![tactic(auto)]

pub mod kept;
pub mod nodes;
pub mod numbers;
pub mod weights;
