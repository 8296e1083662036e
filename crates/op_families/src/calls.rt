// Union, Intsec and Diff: what refuses them, the recursion, and the end of the call.
ghost use Rattle.op_terminal.specs.Inner.{set_number};
ghost use Rattle.op_promise.specs.Promise.{OperationCall};

use crate::recursion::expand;
use op_terminal::families::{SetOperation, ordered, shortcut};
use store::record::{Answered, Fill, Placement, Store};
use store::tests::tested;
use store_undo::finish;

// An operation on two families.
fn of_families(
    op: SetOperation,
    store: Store,
    nodes: &mut [u32],
    lookup: &mut [u32],
    cache: &mut [u32],
    p: u32,
    q: u32,
) -> Answered<Placement>
    ensures { OperationCall (set_number op) p q store nodes.old lookup.old cache.old result nodes.new lookup.new cache.new }
{
    if let Err(refusal) = tested(store, nodes.len(), lookup.len(), p, q, Ok(()), 0, 0) {
        return store.refused(refusal);
    }
    if let Some(handle) = shortcut(op, p, q) {
        return store.placed(handle, 0);
    }
    let (first, second) = ordered(op, p, q);
    let mut fill = store.fill();
    // In a sound store every top is below 513, whatever its limit.
    let answer = expand(op, first, second, 513, &mut fill, nodes, lookup, cache);
    finish(store, fill.count, answer, nodes, lookup, cache)
}

// Kept: these three differ in the operation alone, since C calls each by its name (include/zdd.h).
// The combinations in p or in q.
pub fn union(
    store: Store,
    nodes: &mut [u32],
    lookup: &mut [u32],
    cache: &mut [u32],
    p: u32,
    q: u32,
) -> Answered<Placement>
    ensures { OperationCall 4 p q store nodes.old lookup.old cache.old result nodes.new lookup.new cache.new }
{
    of_families(SetOperation::Union, store, nodes, lookup, cache, p, q)
}

// The combinations in p and in q.
pub fn intsec(
    store: Store,
    nodes: &mut [u32],
    lookup: &mut [u32],
    cache: &mut [u32],
    p: u32,
    q: u32,
) -> Answered<Placement>
    ensures { OperationCall 5 p q store nodes.old lookup.old cache.old result nodes.new lookup.new cache.new }
{
    of_families(SetOperation::Intsec, store, nodes, lookup, cache, p, q)
}

// The combinations in p and not in q.
pub fn diff(
    store: Store,
    nodes: &mut [u32],
    lookup: &mut [u32],
    cache: &mut [u32],
    p: u32,
    q: u32,
) -> Answered<Placement>
    ensures { OperationCall 6 p q store nodes.old lookup.old cache.old result nodes.new lookup.new cache.new }
{
    of_families(SetOperation::Diff, store, nodes, lookup, cache, p, q)
}
