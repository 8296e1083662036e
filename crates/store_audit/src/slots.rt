// The slots of the lookup: a node's own, and how many hold a number.
ghost use Rattle.table.specs.Inner.{OwnAsks};
ghost use Rattle.std.specs.Prelude.{◌≡◌, ◌+◌, ◌<◌};
ghost use Rattle.table.specs.Entered.{used};
ghost use Rattle.store_audit.specs.Inner.{Decides, OwnAt};

use table::own_slots::own_slot;

// Whether the search for the words of node k + 2 among the nodes before it stops at the slot that holds k + 2.
pub fn is_entered(nodes: &[u32], lookup: &[u32], k: u32) -> bool
    requires { OwnAsks nodes.now lookup.now k }
    ensures { Decides (OwnAt nodes.now lookup.now k) result }
{
    let Some(slot) = own_slot(nodes, lookup, k) else {
        return false;
    };
    lookup[slot] == k + 2
}

// How many slots hold a number.
pub fn used_slots(lookup: &[u32]) -> usize
    ensures { result ≡ used lookup.now }
{
    lookup.iter().filter(|number| **number != 0).count()
}
