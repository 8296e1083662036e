// Even and Odd: what refuses them, the recursion, and the end of the call.
ghost use Rattle.std.specs.Prelude.{true, false};
ghost use Rattle.op_parity.specs.Promise.{ParityCall};

use crate::recursion::{expand, leaf_part};
use store::record::{Answered, Fill, Placement, Refusal, Store};
use store::tests::tested;
use store_sides::top_of;
use store_undo::finish;

// The even part of p, or else its odd part.
fn of_parity(
    even: bool,
    store: Store,
    nodes: &mut [u32],
    lookup: &mut [u32],
    cache: &mut [u32],
    p: u32,
) -> Answered<Placement>
    ensures { ParityCall even p store nodes.old lookup.old cache.old result nodes.new lookup.new cache.new }
{
    if let Err(refusal) = tested(store, nodes.len(), lookup.len(), p, 0, Ok(()), 0, 0) {
        return store.refused(refusal);
    }
    let level = top_of(nodes, store.count, p);
    if store.limit < level {
        return store.refused(Refusal::Damaged);
    }
    if level == 0 {
        return store.placed(leaf_part(even, p), 0);
    }
    let mut fill = store.fill();
    let answer = expand(even, p, level, &mut fill, nodes, lookup, cache);
    finish(store, fill.count, answer, nodes, lookup, cache)
}

// Kept: these two differ in the parity alone, since C calls each by its name (include/zdd.h).
// The members of p with an even number of items.
pub fn even(
    store: Store,
    nodes: &mut [u32],
    lookup: &mut [u32],
    cache: &mut [u32],
    p: u32,
) -> Answered<Placement>
    ensures { ParityCall true p store nodes.old lookup.old cache.old result nodes.new lookup.new cache.new }
{
    of_parity(true, store, nodes, lookup, cache, p)
}

// The members of p with an odd number of items.
pub fn odd(
    store: Store,
    nodes: &mut [u32],
    lookup: &mut [u32],
    cache: &mut [u32],
    p: u32,
) -> Answered<Placement>
    ensures { ParityCall false p store nodes.old lookup.old cache.old result nodes.new lookup.new cache.new }
{
    of_parity(false, store, nodes, lookup, cache, p)
}
