// The local table of a file: the words of its nodes and a lookup, as the store has them.
#![tactic(auto)]

ghost use Rattle.std.specs.Prelude.{◌≡◌, ◌*◌, ◌<◌, ◌≤◌, length};
ghost use Rattle.file_table.specs.Inner.{TableRoom, EnterAsks, follows, EnterOf, TakeOf};

use file_record::field::Part;
use store_sides::top_of;
use table::probe::probe;

// Whether a part can come after k others: an item up to 512, children that stand before it and have smaller
// tops, one child not 0.
#[tactic(auto, unfolding(crate::specs::Inner::follows))]
fn is_next(nodes: &[u32], k: u32, part: Part) -> bool
    requires k_in_bounds { 3 * k ≤ length nodes.now }
    requires k_bound { k < 4294967295 }
    ensures { result ≡ follows nodes.now k part.item part.zero part.one }
{
    part.item <= 512
        && part.zero <= k + 1
        && part.one <= k + 1
        && 0 < part.one
        && top_of(nodes, k, part.zero) < part.item
        && top_of(nodes, k, part.one) < part.item
}

// Enters a part behind k others; None where its words stand there already.
fn enter(nodes: &mut [u32], lookup: &mut [u32], k: u32, part: Part) -> Option<()>
    requires { EnterAsks nodes.old lookup.old k part.item }
    ensures { EnterOf nodes.old lookup.old k part.item part.zero part.one result nodes.new lookup.new }
{
    let slot = probe(nodes, lookup, k, part.item, part.zero, part.one)?;
    if lookup[slot] != 0 {
        return None;
    }
    let base = 3 * k as usize;
    nodes[base] = part.item;
    nodes[base + 1] = part.zero;
    nodes[base + 2] = part.one;
    lookup[slot] = k + 2;
    Some(())
}

// Takes a part behind k others; None where it can not come next.
pub fn take_part(nodes: &mut [u32], lookup: &mut [u32], k: u32, part: Part) -> Option<()>
    requires { TableRoom nodes.old lookup.old k }
    ensures { TakeOf nodes.old lookup.old k part result nodes.new lookup.new }
{
    if !is_next(nodes, k, part) {
        return None;
    }
    enter(nodes, lookup, k, part)
}
