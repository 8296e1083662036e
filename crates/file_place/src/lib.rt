// Placing the local parts in the store, one after another; each gets its handle in the store.
#![tactic(auto)]

ghost use Rattle.std.specs.Prelude.{◌≡◌, ◌+◌, ◌*◌, ◌<◌, length, get_or};
ghost use Rattle.store.specs.Inner.{reached};
ghost use Rattle.store.specs.Words.{word_of};
ghost use Rattle.store_node.specs.Inner.{NodeIt};
ghost use Rattle.file_place.specs.Inner.{PartAsks, PartsAsks, PlacedOf};

use store::record::{Fill, Unplaced};
use store_node::getnode::node_of;

// The handle in the store of a local number.
fn handle_at(handles: &[u32], p: u32) -> u32
    requires { p < length handles.now + 2 }
    ensures { result ≡ word_of handles.now p }
{
    if p < 2 {
        return p;
    }
    handles[(p - 2) as usize]
}

// Places the local part number k + 2, and gives its handle.
fn place_part(
    fill: &mut Fill,
    nodes: &mut [u32],
    lookup: &mut [u32],
    parts: &[u32],
    handles: &[u32],
    k: u32,
) -> Result<u32, Unplaced>
    requires { PartAsks fill.old nodes.old lookup.old parts.now handles.now k }
    ensures { NodeIt fill.old nodes.old lookup.old (get_or parts.now (3 * k) 0) (word_of handles.now (get_or parts.now (3 * k + 1) 0)) (word_of handles.now (get_or parts.now (3 * k + 2) 0)) (reached fill.new result) nodes.new lookup.new }
{
    let base = 3 * k as usize;
    let zero = handle_at(handles, parts[base + 1]);
    let one = handle_at(handles, parts[base + 2]);
    node_of(fill, nodes, lookup, parts[base], zero, one)
}

// Places so many parts, whose words are those of local nodes, and gives the handle of the last.
pub fn place_parts(
    fill: &mut Fill,
    nodes: &mut [u32],
    lookup: &mut [u32],
    parts: &[u32],
    handles: &mut [u32],
    count: u32,
) -> Result<u32, Unplaced>
    requires { PartsAsks fill.old nodes.old lookup.old parts.now handles.old count }
    ensures { PlacedOf fill.old nodes.old lookup.old parts.now handles.old count (reached fill.new result) nodes.new lookup.new handles.new }
{
    for k in 0..count {
        let handle = place_part(fill, nodes, lookup, parts, handles, k)?;
        handles[k as usize] = handle;
    }
    Ok(handle_at(handles, count + 1))
}
