// The sum of weights member by member: one way down for each member.
ghost use Rattle.query_weight.specs.Inner.{Grown, WalkAsks, Walked};

use query_sums::weights::weight_at;

// Adds a number to the sum; None, and no change, where the sum would be above the largest number.
fn grow(sum: &mut u64, n: u64) -> Option<()>
    ensures { Grown sum.old n sum.new result }
{
    *sum = sum.checked_add(n)?;
    Some(())
}

// Adds to the sum the weight of each member of a handle whose top is below the bound; `carried` is the weight of the
// items on the way down to it. A way that comes to {{}} is a member. None, and no way further, where the sum would be
// above the largest number.
// Kept: the sum stands behind a reference, and a step tells only whether it still fits. Measured as one value that goes
// into each call and out of it, it took three times the plain C store's time, and so 1.5 times (docs/PERFORMANCE.md).
pub fn add_members(
    p: u32,
    bound: u32,
    carried: u64,
    nodes: &[u32],
    count: u32,
    weights: &[u32],
    sum: &mut u64,
) -> Option<()>
    requires { WalkAsks nodes.now count bound carried }
    ensures { Walked nodes.now weights.now count p bound carried sum.old sum.new result }
{
    if p == 0 {
        return Some(());
    }
    if p == 1 {
        return grow(sum, carried);
    }
    if count + 1 < p {
        return Some(());
    }
    let base = 3 * (p - 2) as usize;
    let item = nodes[base];
    if bound <= item {
        return Some(());
    }
    add_members(nodes[base + 1], item, carried, nodes, count, weights, sum)?;
    let more = carried + weight_at(weights, item);
    add_members(nodes[base + 2], item, more, nodes, count, weights, sum)
}
