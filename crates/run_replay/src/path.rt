// Combinations to ask for.
use crate::draw::step;
use crate::parts::{Node, node_at};
use combination::Combination;

// The empty combination.
pub const NONE: Combination = Combination { words: [0; 16] };

// The combination with the item put in where absent and taken out where present.
pub fn toggled(combination: Combination, item: u32) -> Combination {
    if combination.contains(item) {
        combination.without(item)
    } else {
        combination.including(item)
    }
}

// A member of p that the draw picks; the empty combination where p is not held. Each step down goes to the one child
// where the draw is odd or the zero child is {}, else to the zero child.
pub fn member(nodes: &[u32], p: u32, start: u32) -> Combination {
    let mut draw = start;
    let mut items = NONE;
    let mut at = p;
    for _ in 0..512 {
        let Some(Node { item, zero, one }) = node_at(nodes, at) else {
            break;
        };
        draw = step(draw);
        if draw % 2 == 0 && 0 < zero {
            at = zero;
        } else {
            items = toggled(items, item);
            at = one;
        }
    }
    items
}
