// A node found in the unique table, or added to it.
ghost use Rattle.std.specs.Prelude.{◌+◌, ◌*◌, ◌<◌};
ghost use Rattle.store_node.specs.Inner.{SlotAsks, EnteredIt, NodeAsks, MadeIt};

use store::record::{Fill, Unplaced};
use table::probe::probe;

// How a node was made, by its handle: found among the nodes, or new.
#[derive(Clone, Copy)]
pub enum Made {
    Found(u32),
    New(u32),
}

// Writes the words of the node after `count` others, and its number into its slot.
fn enter(
    nodes: &mut [u32],
    lookup: &mut [u32],
    count: u32,
    slot: usize,
    item: u32,
    zero: u32,
    one: u32,
)
    requires { SlotAsks nodes.old lookup.old count slot }
    ensures { EnteredIt nodes.old lookup.old count slot item zero one nodes.new lookup.new }
{
    let base = 3 * count as usize;
    nodes[base] = item;
    nodes[base + 1] = zero;
    nodes[base + 2] = one;
    lookup[slot] = count + 2;
}

// Kept: a node's item and children are three parameters here and in `table`. The recursions have each in a name of its
// own, so a struct would make every call longer, and `probe` and `enter` would take it apart again.
// The node with these words: found, or new. Refused where there is no room, or on words that no sound store has.
pub fn make(
    fill: Fill,
    nodes: &mut [u32],
    lookup: &mut [u32],
    item: u32,
    zero: u32,
    one: u32,
) -> Result<Made, Unplaced>
    requires { NodeAsks fill nodes.old lookup.old item zero one }
    ensures { MadeIt fill nodes.old lookup.old item zero one result nodes.new lookup.new }
{
    let count = fill.count;
    let slot = probe(nodes, lookup, count, item, zero, one).ok_or(Unplaced::Damaged)?;
    let number = lookup[slot];
    if number == 0 {
        if fill.capacity <= count {
            return Err(Unplaced::Full);
        }
        enter(nodes, lookup, count, slot, item, zero, one);
        let handle = count + 2;
        return Ok(Made::New(handle));
    }
    if number < 2 || count + 1 < number {
        return Err(Unplaced::Damaged);
    }
    Ok(Made::Found(number))
}
