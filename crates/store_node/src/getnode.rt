// Getnode of document 001: the family of an item and two sides.
ghost use Rattle.store.specs.Inner.{reached};
ghost use Rattle.store_node.specs.Inner.{NodeAsks, reached_with, NodeIt};

use crate::unique::{Made, make};
use store::record::{Fill, Unplaced};

// The family of this item and these two sides: where the one side is {} it is the zero side, which is there already,
// else the node.
fn made_node(
    fill: Fill,
    nodes: &mut [u32],
    lookup: &mut [u32],
    item: u32,
    zero: u32,
    one: u32,
) -> Result<Made, Unplaced>
    requires { NodeAsks fill nodes.old lookup.old item zero one }
    ensures { NodeIt fill nodes.old lookup.old item zero one (reached_with fill result) nodes.new lookup.new }
{
    if one == 0 {
        return Ok(Made::Found(zero));
    }
    make(fill, nodes, lookup, item, zero, one)
}

// Its handle, and a new node counted.
// Kept: how far the store is filled, its nodes and its lookup are three parameters here and in the recursions. As the
// fields of one struct (tried) the proof does not close: the borrow checker covers no call as that of `probe`, which
// would be lent two fields by `&` from behind one `&mut`.
pub fn node_of(
    fill: &mut Fill,
    nodes: &mut [u32],
    lookup: &mut [u32],
    item: u32,
    zero: u32,
    one: u32,
) -> Result<u32, Unplaced>
    requires { NodeAsks fill.old nodes.old lookup.old item zero one }
    ensures { NodeIt fill.old nodes.old lookup.old item zero one (reached fill.new result) nodes.new lookup.new }
{
    match made_node(*fill, nodes, lookup, item, zero, one)? {
        Made::Found(handle) => Ok(handle),
        Made::New(handle) => {
            fill.count += 1;
            Ok(handle)
        }
    }
}
