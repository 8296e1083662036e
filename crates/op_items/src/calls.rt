// Subset1, Subset0 and Change: what refuses them, the recursion, and the end of the call.
ghost use Rattle.op_terminal.specs.Inner.{item_number};
ghost use Rattle.op_promise.specs.Promise.{OperationCall};

use crate::recursion::expand;
use op_terminal::items::{ItemOperation, leaf};
use store::record::{Answered, Fill, Placement, Refusal, Store};
use store::tests::{item_test, tested};
use store_sides::top_of;
use store_undo::finish;

// An operation on a family and an item.
fn of_item(
    op: ItemOperation,
    store: Store,
    nodes: &mut [u32],
    lookup: &mut [u32],
    cache: &mut [u32],
    p: u32,
    item: u32,
) -> Answered<Placement>
    ensures { OperationCall (item_number op) p item store nodes.old lookup.old cache.old result nodes.new lookup.new cache.new }
{
    let own = item_test(store.limit, item);
    if let Err(refusal) = tested(store, nodes.len(), lookup.len(), p, 0, own, 0, 0) {
        return store.refused(refusal);
    }
    let level = top_of(nodes, store.count, p);
    if store.limit < level {
        return store.refused(Refusal::Damaged);
    }
    let mut fill = store.fill();
    if level <= item {
        let answer = leaf(op, p, item, level, &mut fill, nodes, lookup);
        return finish(store, fill.count, answer, nodes, lookup, cache);
    }
    let answer = expand(op, p, item, level, &mut fill, nodes, lookup, cache);
    finish(store, fill.count, answer, nodes, lookup, cache)
}

// Kept: these three differ in the operation alone, since C calls each by its name (include/zdd.h).
// The members of p with the item, the item taken out.
pub fn subset1(
    store: Store,
    nodes: &mut [u32],
    lookup: &mut [u32],
    cache: &mut [u32],
    p: u32,
    item: u32,
) -> Answered<Placement>
    ensures { OperationCall 1 p item store nodes.old lookup.old cache.old result nodes.new lookup.new cache.new }
{
    of_item(ItemOperation::Subset1, store, nodes, lookup, cache, p, item)
}

// The members of p without the item.
pub fn subset0(
    store: Store,
    nodes: &mut [u32],
    lookup: &mut [u32],
    cache: &mut [u32],
    p: u32,
    item: u32,
) -> Answered<Placement>
    ensures { OperationCall 2 p item store nodes.old lookup.old cache.old result nodes.new lookup.new cache.new }
{
    of_item(ItemOperation::Subset0, store, nodes, lookup, cache, p, item)
}

// The members of p with the item put in where absent and taken out where present.
pub fn change(
    store: Store,
    nodes: &mut [u32],
    lookup: &mut [u32],
    cache: &mut [u32],
    p: u32,
    item: u32,
) -> Answered<Placement>
    ensures { OperationCall 3 p item store nodes.old lookup.old cache.old result nodes.new lookup.new cache.new }
{
    of_item(ItemOperation::Change, store, nodes, lookup, cache, p, item)
}
