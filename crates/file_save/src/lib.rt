// Save: the file of a family. A walk over the diagram links the parts in placing order; then each record is written
// behind the one before.
#![tactic(auto)]

ghost use Rattle.std.specs.Prelude.{◌≡◌, cond, ◌∷◌, ◌≤◌, eqb, length};
ghost use Rattle.std.proofs.lemmas.List.Edits.{sets};
ghost use Rattle.family.specs.Record.{bytes_of};
ghost use Rattle.file_trail.specs.Inner.{Lent};
ghost use Rattle.file_write.specs.Inner.{HeadRoom};
ghost use Rattle.file_save.specs.Promise.{SaveCall};
ghost use Rattle.file_save.specs.Inner.{LeafOf, FileOf, SavePartsAsks, PartsOf};

use file_record::write::put_field;
use file_trail::trail::Trail;
use file_trail::walk::walk;
use file_write::write_parts;
use store::record::{Answered, Refusal, Store};
use store::tests::tested;
use store_sides::top_of;
use words::zero;

// The byte of {} or {{}}.
fn leaf_byte(p: u32) -> u8
    ensures { result ≡ cond (eqb p 0) 0 2 }
{
    if p == 0 { 0 } else { 2 }
}

// Writes the file of {} or {{}}, and gives its length.
fn save_leaf(p: u32, out: &mut [u8]) -> Result<usize, Refusal>
    ensures { LeafOf p out.old result out.new }
{
    if out.is_empty() {
        return Err(Refusal::Output);
    }
    out[0] = leaf_byte(p);
    Ok(1)
}

// Writes the first five bytes: 01 and the number of parts.
fn put_header(out: &mut [u8], parts: u32)
    requires { 5 ≤ length out.old }
    ensures { out.new ≡ sets out.old 0 (1 ∷ bytes_of 4 parts) }
{
    out[0] = 1;
    put_field(out, 1, 4, true, parts);
}

// Writes the file of the parts of a trail; None on words that no sound store has.
fn write_file(
    trail: Trail,
    nodes: &[u32],
    count: u32,
    links: &mut [u32],
    out: &mut [u8],
) -> Option<()>
    requires lent { Lent nodes.now count links.old }
    requires head_room { HeadRoom trail.parts out.old }
    ensures { FileOf trail nodes.now count links.old out.old result links.new out.new }
{
    put_header(out, trail.parts);
    write_parts(trail.first, trail.parts, nodes, count, links, out)
}

// Writes the file of a family with parts, and gives its length.
fn save_parts(
    store: Store,
    nodes: &[u32],
    p: u32,
    links: &mut [u32],
    out: &mut [u8],
) -> Result<usize, Refusal>
    requires { SavePartsAsks store nodes.now p links.old }
    ensures { PartsOf store p nodes.now links.old out.old result links.new out.new }
{
    let count = store.count;
    let top = top_of(nodes, count, p);
    if store.limit < top {
        return Err(Refusal::Damaged);
    }
    zero(links, 0, count as usize);
    let start = Trail {
        first: 0,
        last: 1,
        item: 0,
        parts: 0,
        bytes: 5,
    };
    let trail = walk(start, p, top, nodes, count, links).ok_or(Refusal::Damaged)?;
    if out.len() < trail.bytes {
        return Err(Refusal::Output);
    }
    write_file(trail, nodes, count, links, out).ok_or(Refusal::Damaged)?;
    Ok(trail.bytes)
}

// What Save answers: the length of the file that it wrote, or a refusal.
fn saved(
    store: Store,
    nodes: &[u32],
    lookup: &[u32],
    p: u32,
    links: &mut [u32],
    out: &mut [u8],
) -> Result<usize, Refusal>
    ensures { SaveCall store nodes.now lookup.now p links.old out.old (record { store = store; answer = result }) links.new out.new }
{
    let need = store.count as usize;
    tested(
        store,
        nodes.len(),
        lookup.len(),
        p,
        0,
        Ok(()),
        links.len(),
        need,
    )?;
    if p < 2 {
        return save_leaf(p, out);
    }
    save_parts(store, nodes, p, links, out)
}

// Writes the file of p to the front of the output, and gives its length.
pub fn save(
    store: Store,
    nodes: &[u32],
    lookup: &[u32],
    p: u32,
    links: &mut [u32],
    out: &mut [u8],
) -> Answered<usize>
    ensures { SaveCall store nodes.now lookup.now p links.old out.old result links.new out.new }
{
    store.answered(saved(store, nodes, lookup, p, links, out))
}
