// Fresh, Empty and Base.
ghost use Rattle.std.specs.Prelude.{◌≡◌};
ghost use Rattle.store_fresh.specs.Promise.{FreshCall};
ghost use Rattle.c_records.specs.Promise.{freshened_of};
ghost use Rattle.zdd_c.specs.Promise.{Exported};

use c_records::CFreshened;
use store_fresh::{base, empty, fresh};

// Makes an empty store of the lent words for the items up to the limit.
#[unsafe(no_mangle)]
pub extern "C" fn zdd_fresh(
    nodes: &mut [u32],
    lookup: &mut [u32],
    cache: &mut [u32],
    limit: u32,
) -> CFreshened
    ensures { Exported freshened_of (λ b. FreshCall limit nodes.old lookup.old cache.old b nodes.new lookup.new cache.new) result }
{
    fresh(nodes, lookup, cache, limit).into()
}

// The handle of {}.
#[unsafe(no_mangle)]
pub extern "C" fn zdd_empty() -> u32
    ensures { result ≡ 0 }
{
    empty()
}

// The handle of {{}}.
#[unsafe(no_mangle)]
pub extern "C" fn zdd_base() -> u32
    ensures { result ≡ 1 }
{
    base()
}
