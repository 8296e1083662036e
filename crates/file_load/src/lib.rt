// Load: places the family of a file. The file is read and tested whole before the first part is placed.
#![tactic(auto)]

ghost use Rattle.file_load.specs.Promise.{LoadCall};

use file_place::place_parts;
use file_read::file::{Content, read_file};
use store::record::{Answered, Placement, Refusal, Store};
use store::tests::tested;
use store_sides::top_of;
use store_undo::finish;

// Reads a file and places its family.
pub fn load(
    store: Store,
    nodes: &mut [u32],
    lookup: &mut [u32],
    cache: &mut [u32],
    file: &[u8],
    words: &mut [u32],
) -> Answered<Placement>
    ensures { LoadCall store nodes.old lookup.old cache.old file.now words.old result nodes.new lookup.new cache.new words.new }
{
    let bytes = file.len();
    let room = words.len() / 6;
    let found = tested(store, nodes.len(), lookup.len(), 0, 0, Ok(()), room, bytes);
    if let Err(refusal) = found {
        return store.refused(refusal);
    }
    // For each byte of the file the scratch has three words of local nodes, two of a local lookup, and a handle.
    let (parts, others) = words.split_at_mut(3 * bytes);
    let (slots, others) = others.split_at_mut(2 * bytes);
    let handles = &mut others[..bytes];
    match read_file(file, parts, slots) {
        None => store.refused(Refusal::NoFile),
        Some(Content::Leaf(handle)) => store.placed(handle, 0),
        Some(Content::Parts(count)) => {
            // The last part is the family: no item of the file is above its top.
            if store.limit < top_of(parts, count, count + 1) {
                return store.refused(Refusal::AboveLimit);
            }
            let mut fill = store.fill();
            let answer = place_parts(&mut fill, nodes, lookup, parts, handles, count);
            finish(store, fill.count, answer, nodes, lookup, cache)
        }
    }
}
