// Save and Load.
ghost use Rattle.file_load.specs.Promise.{LoadCall};
ghost use Rattle.file_save.specs.Promise.{SaveCall};
ghost use Rattle.c_records.specs.Promise.{placed_of, saved_of};
ghost use Rattle.zdd_c.specs.Promise.{Exported};

use c_records::{CPlaced, CSaved};
use file_load::load;
use file_save::save;
use store::record::Store;

// Writes the file of p to the front of the output, and gives its length.
#[unsafe(no_mangle)]
pub extern "C" fn zdd_save(
    store: Store,
    nodes: &[u32],
    lookup: &[u32],
    p: u32,
    scratch: &mut [u32],
    out: &mut [u8],
) -> CSaved
    ensures { Exported saved_of (λ b. SaveCall store nodes.now lookup.now p scratch.old out.old b scratch.new out.new) result }
{
    save(store, nodes, lookup, p, scratch, out).into()
}

// Reads a file and places its family.
#[unsafe(no_mangle)]
pub extern "C" fn zdd_load(
    store: Store,
    nodes: &mut [u32],
    lookup: &mut [u32],
    cache: &mut [u32],
    file: &[u8],
    scratch: &mut [u32],
) -> CPlaced
    ensures { Exported placed_of (λ b. LoadCall store nodes.old lookup.old cache.old file.now scratch.old b nodes.new lookup.new cache.new scratch.new) result }
{
    load(store, nodes, lookup, cache, file, scratch).into()
}
