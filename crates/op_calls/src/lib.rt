// Any of the six operations.
#![tactic(auto)]

ghost use Rattle.op_promise.specs.Promise.{number_of, OperationCall};

use op_families::calls::{diff, intsec, union};
use op_items::calls::{change, subset0, subset1};
use op_promise::Operation;
use store::record::{Answered, Placement, Store};

// An operation on a handle and, by the operation, an item or a second handle.
pub fn operate(
    op: Operation,
    store: Store,
    nodes: &mut [u32],
    lookup: &mut [u32],
    cache: &mut [u32],
    p: u32,
    q: u32,
) -> Answered<Placement>
    ensures { OperationCall (number_of op) p q store nodes.old lookup.old cache.old result nodes.new lookup.new cache.new }
{
    match op {
        Operation::Subset1 => subset1(store, nodes, lookup, cache, p, q),
        Operation::Subset0 => subset0(store, nodes, lookup, cache, p, q),
        Operation::Change => change(store, nodes, lookup, cache, p, q),
        Operation::Union => union(store, nodes, lookup, cache, p, q),
        Operation::Intsec => intsec(store, nodes, lookup, cache, p, q),
        Operation::Diff => diff(store, nodes, lookup, cache, p, q),
    }
}
