// Fresh, Empty and Base.
#![tactic(auto)]

ghost use Rattle.std.specs.Prelude.{◌≡◌, Err};
ghost use Rattle.store_fresh.specs.Promise.{no_store, FreshCall};

use store::record::{Answered, Refusal, Store, capacity_of, is_limit};
use words::{zero, zero_groups};

// The handle of {}.
pub fn empty() -> u32
    ensures { result ≡ 0 }
{
    0
}

// The handle of {{}}.
pub fn base() -> u32
    ensures { result ≡ 1 }
{
    1
}

// A refused Fresh: no store.
fn refuse(refusal: Refusal) -> Answered<()>
    ensures { (result.store ≡ no_store) × (result.answer ≡ Err refusal) }
{
    Store::new(0, 0).refused(refusal)
}

// Makes an empty store of the lent words for the items up to the limit: zeroes the node words of the capacity, the
// lookup and the whole cache groups.
pub fn fresh(nodes: &mut [u32], lookup: &mut [u32], cache: &mut [u32], limit: u32) -> Answered<()>
    ensures { FreshCall limit nodes.old lookup.old cache.old result nodes.new lookup.new cache.new }
{
    if nodes.len() < 3 {
        return refuse(Refusal::Tiny);
    }
    let capacity = capacity_of(nodes.len());
    if lookup.len() <= capacity as usize {
        return refuse(Refusal::ShortLookup);
    }
    if !is_limit(limit) {
        return refuse(Refusal::Item);
    }
    zero(nodes, 0, 3 * capacity as usize);
    let slots = lookup.len();
    zero(lookup, 0, slots);
    zero_groups(cache);
    Store::new(capacity, limit).answered(Ok(()))
}
