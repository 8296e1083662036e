// Audit.
ghost use Rattle.store_audit.specs.Promise.{AuditCall};
ghost use Rattle.c_records.specs.Promise.{audited_of};
ghost use Rattle.zdd_c.specs.Promise.{Exported};

use c_records::CAudited;
use store::record::Store;
use store_audit::audit::audit;

// Zeroes the whole cache groups and says whether the store is then sound.
#[unsafe(no_mangle)]
pub extern "C" fn zdd_audit(
    store: Store,
    nodes: &[u32],
    lookup: &[u32],
    cache: &mut [u32],
) -> CAudited
    ensures { Exported audited_of (λ b. AuditCall store nodes.now lookup.now cache.old b cache.new) result }
{
    audit(store, nodes, lookup, cache).into()
}
