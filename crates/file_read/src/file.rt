// A file read into the local table: its head, its records, and their order.
ghost use Rattle.std.specs.Prelude.{◌∷◌, ◌<◌};
ghost use Rattle.file_read.specs.Inner.{RecordsRoom, FileRoom, TableOf, ContentOf};

use crate::order::in_order;
use crate::read::read_records;
use file_parse::read_number;

// What a file holds: {} or {{}} by its handle, or so many parts in the local table.
#[derive(Clone, Copy)]
pub enum Content {
    Leaf(u32),
    Parts(u32),
}

// Reads so many records into the local table; None where they are not so many, or not in placing order.
fn read_table(records: &[u8], parts: u32, nodes: &mut [u32], lookup: &mut [u32]) -> Option<()>
    requires records_room { RecordsRoom records.now parts nodes.old lookup.old }
    requires parts_nonzero { 0 < parts }
    ensures { TableOf records.now parts nodes.old lookup.old result nodes.new lookup.new }
{
    lookup.fill(0);
    read_records(records, parts, nodes, lookup)?;
    let last = in_order(nodes, parts, parts + 1, 1)?;
    (last == parts + 1).then_some(())
}

// What follows the byte 01.
fn read_parts(rest: &[u8], nodes: &mut [u32], lookup: &mut [u32]) -> Option<Content>
    requires { FileRoom (1 ∷ rest.now) nodes.old lookup.old }
    ensures { ContentOf (1 ∷ rest.now) nodes.old lookup.old result nodes.new lookup.new }
{
    if rest.len() < 4 {
        return None;
    }
    let parts = read_number(rest, 4);
    if parts == 0 {
        return None;
    }
    if parts == 4294967295 {
        return None;
    }
    read_table(&rest[4..], parts, nodes, lookup)?;
    Some(Content::Parts(parts))
}

// What the bytes of a file hold; None where they hold no family.
pub fn read_file(file: &[u8], nodes: &mut [u32], lookup: &mut [u32]) -> Option<Content>
    requires { FileRoom file.now nodes.old lookup.old }
    ensures { ContentOf file.now nodes.old lookup.old result nodes.new lookup.new }
{
    let (first, rest) = file.split_first()?;
    match *first {
        1 => read_parts(rest, nodes, lookup),
        0 if rest.is_empty() => Some(Content::Leaf(0)),
        2 if rest.is_empty() => Some(Content::Leaf(1)),
        _ => None,
    }
}
