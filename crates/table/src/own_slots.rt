// The slots of the newest nodes: finding one by the node's own words, and emptying them.
ghost use Rattle.std.specs.Prelude.{◌≡◌, ◌+◌, ◌-◌, ◌*◌, ◌<◌, length};
ghost use Rattle.table.specs.Probe.{SlotOf};
ghost use Rattle.table.specs.Own.{own_of, cleared};
ghost use Rattle.table.specs.Inner.{OwnAsks, ClearAsks};

use crate::probe::probe;

// Where the search for the words of node k + 2 stops among the nodes before it; None where it stops nowhere, or its
// item is none.
pub fn own_slot(nodes: &[u32], lookup: &[u32], k: u32) -> Option<usize>
    requires { OwnAsks nodes.now lookup.now k }
    ensures { SlotOf (length lookup.now) (own_of nodes.now lookup.now k) result }
{
    let base = 3 * k as usize;
    let item = nodes[base];
    if item < 1 || 512 < item {
        return None;
    }
    probe(nodes, lookup, k, item, nodes[base + 1], nodes[base + 2])
}

// Empties the slots of the nodes after the first keep, the newest first.
pub fn clear_newest(nodes: &[u32], lookup: &mut [u32], keep: u32, count: u32)
    requires { ClearAsks nodes.now lookup.old keep count }
    ensures { lookup.new ≡ cleared nodes.now lookup.old keep (count - keep) }
{
    for k in (keep..count).rev() {
        if let Some(slot) = own_slot(nodes, lookup, k) {
            lookup[slot] = 0;
        }
    }
}
