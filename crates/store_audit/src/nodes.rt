// The nodes held, one after another.
ghost use Rattle.std.specs.Prelude.{◌+◌, ◌*◌, ◌<◌};
ghost use Rattle.store_audit.specs.Inner.{RowAsks, RowsAsks, Decides, NodeAt, NodesTo};

use crate::slots::is_entered;
use store::record::Store;
use store_sides::top_of;

// Whether the words of node k + 2 are an item up to the limit, a child before it, and a child before it that is not
// {}, both with smaller tops.
fn obeys(nodes: &[u32], k: u32, limit: u32) -> bool
    requires { RowAsks nodes.now k }
    ensures { Decides (NodeAt limit nodes.now k) result }
{
    let base = 3 * k as usize;
    let item = nodes[base];
    let zero = nodes[base + 1];
    let one = nodes[base + 2];
    item <= limit
        && one != 0
        && zero <= k + 1
        && one <= k + 1
        && top_of(nodes, k, zero) < item
        && top_of(nodes, k, one) < item
}

// Whether each node held obeys the rules of a node and has its own slot.
pub fn all_obey(store: Store, nodes: &[u32], lookup: &[u32]) -> bool
    requires { RowsAsks nodes.now lookup.now store.count }
    ensures { Decides (NodesTo store.limit nodes.now lookup.now store.count) result }
{
    for k in 0..store.count {
        if !obeys(nodes, k, store.limit) || !is_entered(nodes, lookup, k) {
            return false;
        }
    }
    true
}
