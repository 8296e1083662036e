// Size: the number of members.
#![tactic(auto)]

ghost use Rattle.query_size.specs.Promise.{SizeCall};

use query_sizes::{exceeds, fill_sizes, size_at};
use store::record::{Answered, Refusal, Store};
use store::tests::tested;

// The number of members of p, or a refusal; where the tests refuse nothing, the scratch is filled.
fn counted(
    store: Store,
    nodes: &[u32],
    lookup: &[u32],
    p: u32,
    sizes: &mut [u64],
) -> Result<u64, Refusal>
    ensures { SizeCall store nodes.now lookup.now p sizes.old (record { store = store; answer = result }) sizes.new }
{
    let count = store.count;
    tested(
        store,
        nodes.len(),
        lookup.len(),
        p,
        0,
        Ok(()),
        sizes.len(),
        count as usize,
    )?;
    fill_sizes(nodes, sizes, count);
    let members = size_at(sizes, p);
    if members == u64::MAX && exceeds(nodes, sizes, count, p) {
        return Err(Refusal::Large);
    }
    Ok(members)
}

// The number of members of p; the scratch then holds the size of every node held, at most 2^64 - 1.
pub fn size(store: Store, nodes: &[u32], lookup: &[u32], p: u32, sizes: &mut [u64]) -> Answered<u64>
    ensures { SizeCall store nodes.now lookup.now p sizes.old result sizes.new }
{
    store.answered(counted(store, nodes, lookup, p, sizes))
}
