// Taking back the newest nodes, and the end of a call that places.
#![tactic(auto)]

ghost use Rattle.store.specs.Capacity.{counting};
ghost use Rattle.store_undo.specs.Inner.{UndoAsks, RolledBack, Finished};

use store::record::{Answered, Placement, Store, Unplaced};
use table::own_slots::clear_newest;
use words::{zero, zero_groups};

// Takes back the newest nodes until `keep` are left: empties their slots, the newest first, and zeroes their words.
pub fn rollback(store: Store, nodes: &mut [u32], lookup: &mut [u32], keep: u32)
    requires { UndoAsks store nodes.old lookup.old keep }
    ensures { RolledBack store nodes.old lookup.old keep nodes.new lookup.new }
{
    let count = store.count;
    clear_newest(nodes, lookup, keep, count);
    zero(nodes, 3 * keep as usize, 3 * count as usize);
}

// Ends a call on a store that now holds so many nodes: a handle is given with the number of nodes added; after a
// refusal they are taken back and the whole cache groups zeroed.
pub fn finish(
    store: Store,
    held: u32,
    answer: Result<u32, Unplaced>,
    nodes: &mut [u32],
    lookup: &mut [u32],
    cache: &mut [u32],
) -> Answered<Placement>
    requires { UndoAsks (counting store held) nodes.old lookup.old store.count }
    ensures { Finished store held answer nodes.old lookup.old cache.old result nodes.new lookup.new cache.new }
{
    let after = store.with_count(held);
    let before = store.count;
    match answer {
        Ok(handle) => {
            let added = held - before;
            after.placed(handle, added)
        }
        Err(why) => {
            rollback(after, nodes, lookup, before);
            zero_groups(cache);
            store.refused(why.into())
        }
    }
}
