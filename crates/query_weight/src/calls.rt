// The two calls.
ghost use Rattle.query_weight.specs.Promise.{WeightCall, by_members, by_nodes};

use crate::tests::weight_tested;
use crate::walk::add_members;
use query_sums::nodes::weigh_nodes;
use query_sums::numbers::both_at;
use store::record::{Answered, Refusal, Store};

// The sum of weights of p, member by member, or a refusal.
fn sum_by_members(
    store: Store,
    nodes: &[u32],
    lookup: &[u32],
    p: u32,
    weights: &[u32],
    scratch: &[u64],
) -> Result<u64, Refusal>
    ensures { WeightCall by_members store nodes.now lookup.now p weights.now scratch.now (record { store = store; answer = result }) scratch.now }
{
    weight_tested(
        store,
        nodes.len(),
        lookup.len(),
        p,
        weights.len(),
        scratch.len(),
    )?;
    let mut sum = 0;
    let fits = add_members(p, 513, 0, nodes, store.count, weights, &mut sum);
    fits.and(Some(sum)).ok_or(Refusal::Large)
}

// The sum of weights of p, node by node, or a refusal.
fn sum_by_nodes(
    store: Store,
    nodes: &[u32],
    lookup: &[u32],
    p: u32,
    weights: &[u32],
    scratch: &mut [u64],
) -> Result<u64, Refusal>
    ensures { WeightCall by_nodes store nodes.now lookup.now p weights.now scratch.old (record { store = store; answer = result }) scratch.new }
{
    weight_tested(
        store,
        nodes.len(),
        lookup.len(),
        p,
        weights.len(),
        scratch.len(),
    )?;
    weigh_nodes(nodes, weights, scratch, store.count, p);
    let both = both_at(scratch, store.count, p);
    both.sum.ok_or(Refusal::Large)
}

// The sum of weights of p, member by member. It is lent scratch as the sum by nodes is, and writes none of it.
pub fn weight_by_members(
    store: Store,
    nodes: &[u32],
    lookup: &[u32],
    p: u32,
    weights: &[u32],
    scratch: &mut [u64],
) -> Answered<u64>
    ensures { WeightCall by_members store nodes.now lookup.now p weights.now scratch.old result scratch.new }
{
    store.answered(sum_by_members(store, nodes, lookup, p, weights, scratch))
}

// The sum of weights of p, node by node.
pub fn weight_by_nodes(
    store: Store,
    nodes: &[u32],
    lookup: &[u32],
    p: u32,
    weights: &[u32],
    scratch: &mut [u64],
) -> Answered<u64>
    ensures { WeightCall by_nodes store nodes.now lookup.now p weights.now scratch.old result scratch.new }
{
    store.answered(sum_by_nodes(store, nodes, lookup, p, weights, scratch))
}
