// Subset1, Subset0 and Change: the recursion on the two sides; the top item falls at each call.
ghost use Rattle.op_items.specs.Inner.{RestrictAsks, ItemStepAsks};
ghost use Rattle.op_cache.specs.Inner.{call_of};
ghost use Rattle.op_terminal.specs.Inner.{item_number};
ghost use Rattle.store.specs.Operations.{named};
ghost use Rattle.store.specs.Inner.{reached, Ran};

use op_cache::{Call, group_of, recall};
use op_step::keep;
use op_terminal::items::{ItemOperation, leaf};
use store::record::{Fill, Unplaced};
use store_node::getnode::node_of;
use store_sides::{Sides, sides_at};

// The operation on a family whose top is the level: at once where the item is not below it, else by the two sides.
#[cycle(expand_restrict)]
fn restrict(
    op: ItemOperation,
    p: u32,
    item: u32,
    level: u32,
    fill: &mut Fill,
    nodes: &mut [u32],
    lookup: &mut [u32],
    cache: &mut [u32],
) -> Result<u32, Unplaced>
    requires { RestrictAsks (call_of (item_number op) p item) level fill.old nodes.old lookup.old }
    ensures { Ran item (λ B. named (item_number op) B p item) fill.old nodes.old lookup.old cache.old (reached fill.new result) nodes.new lookup.new cache.new }
{
    // Above the top no member holds the item: Subset1 is {}, and Subset0 is p itself. Neither costs a call.
    if level < item {
        match op {
            ItemOperation::Subset1 => return Ok(0),
            ItemOperation::Subset0 => return Ok(p),
            ItemOperation::Change => {}
        }
    }
    if level <= item {
        return leaf(op, p, item, level, fill, nodes, lookup);
    }
    expand(op, p, item, level, fill, nodes, lookup, cache)
}

// The same with the item below the level: the cache, else the two sides and the node of their results.
#[cycle(expand_restrict)]
pub fn expand(
    op: ItemOperation,
    p: u32,
    item: u32,
    level: u32,
    fill: &mut Fill,
    nodes: &mut [u32],
    lookup: &mut [u32],
    cache: &mut [u32],
) -> Result<u32, Unplaced>
    requires { ItemStepAsks (call_of (item_number op) p item) level fill.old nodes.old lookup.old }
    ensures { Ran item (λ B. named (item_number op) B p item) fill.old nodes.old lookup.old cache.old (reached fill.new result) nodes.new lookup.new cache.new }
{
    let call = Call {
        op: op.into(),
        p,
        q: item,
    };
    let group = group_of(call, cache.len());
    if let Some(handle) = recall(cache, group, fill.count, call) {
        return Ok(handle);
    }
    let Some(sides) = sides_at(nodes, fill.count, p, level) else {
        return Err(Unplaced::Damaged);
    };
    let zero = restrict(op, sides.zero, item, sides.ztop, fill, nodes, lookup, cache)?;
    let one = restrict(op, sides.one, item, sides.otop, fill, nodes, lookup, cache)?;
    let made = node_of(fill, nodes, lookup, level, zero, one);
    keep(cache, group, call, made);
    made
}
