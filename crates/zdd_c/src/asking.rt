// Size by both its entries, and Has.
ghost use Rattle.family.specs.Combination.{items_of};
ghost use Rattle.query_has.specs.Promise.{HasCall};
ghost use Rattle.query_size.specs.Promise.{SizeCall};
ghost use Rattle.query_size_compact.specs.Promise.{CompactCall};
ghost use Rattle.c_records.specs.Promise.{measured_of, asked_of};
ghost use Rattle.zdd_c.specs.Promise.{Exported};

use c_records::{CAsked, CMeasured};
use combination::Combination;
use query_has::has;
use query_size::size;
use query_size_compact::call::size_compact;
use store::record::Store;

// The number of members of p; the scratch then holds the size of every node held.
#[unsafe(no_mangle)]
pub extern "C" fn zdd_size(
    store: Store,
    nodes: &[u32],
    lookup: &[u32],
    p: u32,
    sizes: &mut [u64],
) -> CMeasured
    ensures { Exported measured_of (λ b. SizeCall store nodes.now lookup.now p sizes.old b sizes.new) result }
{
    size(store, nodes, lookup, p, sizes).into()
}

// The same number, in scratch of two words for each part of p.
#[unsafe(no_mangle)]
pub extern "C" fn zdd_size_compact(
    store: Store,
    nodes: &[u32],
    lookup: &[u32],
    p: u32,
    scratch: &mut [u64],
) -> CMeasured
    ensures { Exported measured_of (λ b. CompactCall store nodes.now lookup.now p scratch.old b scratch.new) result }
{
    size_compact(store, nodes, lookup, p, scratch).into()
}

// Whether the combination is a member of p.
#[unsafe(no_mangle)]
pub extern "C" fn zdd_has(
    store: Store,
    nodes: &[u32],
    lookup: &[u32],
    p: u32,
    combination: Combination,
) -> CAsked
    ensures { Exported asked_of (λ b. HasCall store nodes.now lookup.now p (items_of combination.words) b) result }
{
    has(store, nodes, lookup, p, combination).into()
}
