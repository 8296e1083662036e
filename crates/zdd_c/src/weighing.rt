// The sums of weights, by members and by nodes.
ghost use Rattle.query_weight.specs.Promise.{WeightCall, by_members, by_nodes};
ghost use Rattle.c_records.specs.Promise.{weighed_of};
ghost use Rattle.zdd_c.specs.Promise.{Exported};

use c_records::CWeighed;
use query_weight::calls::{weight_by_members, weight_by_nodes};
use store::record::Store;

// The sum of item weights over the members of p, added member by member.
#[unsafe(no_mangle)]
pub extern "C" fn zdd_weight_by_members(
    store: Store,
    nodes: &[u32],
    lookup: &[u32],
    p: u32,
    weights: &[u32],
    scratch: &mut [u64],
) -> CWeighed
    ensures { Exported weighed_of (λ b. WeightCall by_members store nodes.now lookup.now p weights.now scratch.old b scratch.new) result }
{
    weight_by_members(store, nodes, lookup, p, weights, scratch).into()
}

// The same sum, added node by node.
#[unsafe(no_mangle)]
pub extern "C" fn zdd_weight_by_nodes(
    store: Store,
    nodes: &[u32],
    lookup: &[u32],
    p: u32,
    weights: &[u32],
    scratch: &mut [u64],
) -> CWeighed
    ensures { Exported weighed_of (λ b. WeightCall by_nodes store nodes.now lookup.now p weights.now scratch.old b scratch.new) result }
{
    weight_by_nodes(store, nodes, lookup, p, weights, scratch).into()
}
