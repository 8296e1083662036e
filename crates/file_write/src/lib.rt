// Writing the records in placing order, each behind the one before. A part that is written has its local number in
// place of its link.
#![tactic(auto)]

ghost use Rattle.std.specs.Prelude.{◌≡◌, ◌+◌, ◌≤◌, length};
ghost use Rattle.store.specs.Words.{word_of};
ghost use Rattle.file_trail.specs.Inner.{Lent};
ghost use Rattle.file_write.specs.Inner.{LocalPart, CursorFits, TurnOf, HeadRoom, WritesOf};

use file_record::field::{Last, Part};
use file_record::write::put_record;

// The part to be written next, what its record goes by, and the record's place.
#[derive(Clone, Copy)]
pub struct Cursor {
    pub at: u32,
    pub last: Last,
    pub place: usize,
}

// The local number of a handle whose part is written.
fn local(links: &[u32], handle: u32) -> u32
    ensures { result ≡ word_of links.now handle }
{
    if handle < 2 {
        return handle;
    }
    links.get((handle - 2) as usize).copied().unwrap_or(0)
}

// The part whose node words start at `base`, its children by local numbers.
fn part_at(nodes: &[u32], base: usize, links: &[u32]) -> Part
    requires { base + 3 ≤ length nodes.now }
    ensures { LocalPart nodes.now base links.now result }
{
    Part {
        item: nodes[base],
        zero: local(links, nodes[base + 1]),
        one: local(links, nodes[base + 2]),
    }
}

// Writes the record of the part at the cursor into what remains of the output, and gives the cursor after it; None on
// words that no sound store has.
fn write_part(
    cursor: Cursor,
    nodes: &[u32],
    count: u32,
    links: &mut [u32],
    out: &mut [u8],
) -> Option<Cursor>
    requires lent { Lent nodes.now count links.old }
    requires cursor_fits { CursorFits cursor out.old }
    ensures { TurnOf cursor nodes.now count links.old out.old result links.new out.new }
{
    let Cursor { at, last, place } = cursor;
    if at < 2 {
        return None;
    }
    if count + 1 < at {
        return None;
    }
    let j = (at - 2) as usize;
    let part = part_at(nodes, 3 * j, links);
    if 512 < part.item {
        return None;
    }
    let length = part.standing(last).length();
    if out.len() - place < length {
        return None;
    }
    put_record(&mut out[place..], last, part);
    let next = links[j];
    let number = last.number + 1;
    links[j] = number;
    Some(Cursor {
        at: next,
        last: Last {
            item: part.item,
            number,
        },
        place: place + length,
    })
}

// Writes the records of so many parts, from the first on; None on words that no sound store has.
pub fn write_parts(
    first: u32,
    parts: u32,
    nodes: &[u32],
    count: u32,
    links: &mut [u32],
    out: &mut [u8],
) -> Option<()>
    requires lent { Lent nodes.now count links.old }
    requires head_room { HeadRoom parts out.old }
    ensures { WritesOf first parts nodes.now count links.old out.old result links.new out.new }
{
    let mut cursor = Cursor {
        at: first,
        last: Last { item: 0, number: 1 },
        place: 5,
    };
    for _ in 0..parts {
        cursor = write_part(cursor, nodes, count, links, out)?;
    }
    Some(())
}
