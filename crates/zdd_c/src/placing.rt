// The six operations, Even and Odd.
ghost use Rattle.std.specs.Prelude.{true, false};
ghost use Rattle.op_promise.specs.Promise.{OperationCall};
ghost use Rattle.op_parity.specs.Promise.{ParityCall};
ghost use Rattle.c_records.specs.Promise.{placed_of};
ghost use Rattle.zdd_c.specs.Promise.{Exported};

use c_records::CPlaced;
use op_families::calls::{diff, intsec, union};
use op_items::calls::{change, subset0, subset1};
use op_parity::calls::{even, odd};
use store::record::Store;

// The members of p with the item, the item taken out.
#[unsafe(no_mangle)]
pub extern "C" fn zdd_subset1(
    store: Store,
    nodes: &mut [u32],
    lookup: &mut [u32],
    cache: &mut [u32],
    p: u32,
    item: u32,
) -> CPlaced
    ensures { Exported placed_of (λ b. OperationCall 1 p item store nodes.old lookup.old cache.old b nodes.new lookup.new cache.new) result }
{
    subset1(store, nodes, lookup, cache, p, item).into()
}

// The members of p without the item.
#[unsafe(no_mangle)]
pub extern "C" fn zdd_subset0(
    store: Store,
    nodes: &mut [u32],
    lookup: &mut [u32],
    cache: &mut [u32],
    p: u32,
    item: u32,
) -> CPlaced
    ensures { Exported placed_of (λ b. OperationCall 2 p item store nodes.old lookup.old cache.old b nodes.new lookup.new cache.new) result }
{
    subset0(store, nodes, lookup, cache, p, item).into()
}

// The members of p with the item put in where absent and taken out where present.
#[unsafe(no_mangle)]
pub extern "C" fn zdd_change(
    store: Store,
    nodes: &mut [u32],
    lookup: &mut [u32],
    cache: &mut [u32],
    p: u32,
    item: u32,
) -> CPlaced
    ensures { Exported placed_of (λ b. OperationCall 3 p item store nodes.old lookup.old cache.old b nodes.new lookup.new cache.new) result }
{
    change(store, nodes, lookup, cache, p, item).into()
}

// The combinations in p or in q.
#[unsafe(no_mangle)]
pub extern "C" fn zdd_union(
    store: Store,
    nodes: &mut [u32],
    lookup: &mut [u32],
    cache: &mut [u32],
    p: u32,
    q: u32,
) -> CPlaced
    ensures { Exported placed_of (λ b. OperationCall 4 p q store nodes.old lookup.old cache.old b nodes.new lookup.new cache.new) result }
{
    union(store, nodes, lookup, cache, p, q).into()
}

// The combinations in p and in q.
#[unsafe(no_mangle)]
pub extern "C" fn zdd_intsec(
    store: Store,
    nodes: &mut [u32],
    lookup: &mut [u32],
    cache: &mut [u32],
    p: u32,
    q: u32,
) -> CPlaced
    ensures { Exported placed_of (λ b. OperationCall 5 p q store nodes.old lookup.old cache.old b nodes.new lookup.new cache.new) result }
{
    intsec(store, nodes, lookup, cache, p, q).into()
}

// The combinations in p and not in q.
#[unsafe(no_mangle)]
pub extern "C" fn zdd_diff(
    store: Store,
    nodes: &mut [u32],
    lookup: &mut [u32],
    cache: &mut [u32],
    p: u32,
    q: u32,
) -> CPlaced
    ensures { Exported placed_of (λ b. OperationCall 6 p q store nodes.old lookup.old cache.old b nodes.new lookup.new cache.new) result }
{
    diff(store, nodes, lookup, cache, p, q).into()
}

// The members of p with an even number of items.
#[unsafe(no_mangle)]
pub extern "C" fn zdd_even(
    store: Store,
    nodes: &mut [u32],
    lookup: &mut [u32],
    cache: &mut [u32],
    p: u32,
) -> CPlaced
    ensures { Exported placed_of (λ b. ParityCall true p store nodes.old lookup.old cache.old b nodes.new lookup.new cache.new) result }
{
    even(store, nodes, lookup, cache, p).into()
}

// The members of p with an odd number of items.
#[unsafe(no_mangle)]
pub extern "C" fn zdd_odd(
    store: Store,
    nodes: &mut [u32],
    lookup: &mut [u32],
    cache: &mut [u32],
    p: u32,
) -> CPlaced
    ensures { Exported placed_of (λ b. ParityCall false p store nodes.old lookup.old cache.old b nodes.new lookup.new cache.new) result }
{
    odd(store, nodes, lookup, cache, p).into()
}
