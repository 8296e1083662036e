// Audit: whether a store is sound.
ghost use Rattle.store_audit.specs.Inner.{TellsSound};
ghost use Rattle.store_audit.specs.Promise.{AuditCall};

use crate::blank::are_zero;
use crate::nodes::all_obey;
use crate::slots::used_slots;
use store::record::Store;
use words::zero_groups;

// What Audit gives back, which refuses nothing: the record as it came, and whether the store is sound.
#[derive(Clone, Copy)]
pub struct Audited {
    pub store: Store,
    pub sound: bool,
}

// Whether the record, the node words and the lookup are those of a sound store.
fn is_sound(store: Store, nodes: &[u32], lookup: &[u32]) -> bool
    ensures { TellsSound store nodes.now lookup.now result }
{
    if !store.fits(nodes.len(), lookup.len())
        || used_slots(lookup) != store.count as usize
        || !are_zero(nodes, 3 * store.count as usize, 3 * store.capacity as usize)
    {
        return false;
    }
    all_obey(store, nodes, lookup)
}

// Zeroes the whole cache groups and says whether the store is then sound.
pub fn audit(store: Store, nodes: &[u32], lookup: &[u32], cache: &mut [u32]) -> Audited
    ensures { AuditCall store nodes.now lookup.now cache.old result cache.new }
{
    zero_groups(cache);
    let sound = is_sound(store, nodes, lookup);
    Audited { store, sound }
}
