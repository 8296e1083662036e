// Drawn files. A mask goes into every draw: with 0 the records are mostly near to those of a true file; with 56 the
// file is true, each item the next and each one child the record before.
use crate::draw::{Drawn, draw, step};
use crate::replay::Replay;
use std::io;

// A record's three numbers, and its bit map byte.
// Kept: no three Options, since drawn bits go over those that the numbers ask for.
#[derive(Clone, Copy)]
pub struct Fields {
    pub bits: u32,
    pub item: u32,
    pub zero: u32,
    pub one: u32,
}

// An item: mostly the one before plus 1, or a little more; seldom the same, a small one, or one near the limit or near
// the end of the items.
fn craft_item(x: u32, before: u32, limit: u32) -> u32 {
    let pick = x / 32;
    let next = before.wrapping_add(1);
    match x % 32 {
        0 => 512 + pick % 2,
        1 => before,
        2..=3 => 1 + pick % 4,
        4..=7 => limit.wrapping_add(pick % 2),
        8..=11 => next.wrapping_add(pick % 3),
        _ => next,
    }
}

// A zero child: 0 or a number below the record's own; seldom its own.
fn craft_zero(x: u32, local: u32) -> u32 {
    if x % 2 == 0 {
        return 0;
    }
    if x % 64 == 1 {
        return local;
    }
    (x / 64).checked_rem(local).unwrap_or(0)
}

// A one child: mostly the record before, else a number below the record's own; seldom 0 or its own.
fn craft_one(x: u32, local: u32) -> u32 {
    let before = local.wrapping_sub(1);
    match x % 64 {
        0 => 0,
        1 => local,
        2..=7 => (x / 64).checked_rem(before).unwrap_or(0).wrapping_add(1),
        _ => before,
    }
}

// The bit map byte: the one that the fields ask for, seldom with more bits.
fn craft_bits(x: u32, plain: u32) -> u32 {
    if x % 32 == 0 {
        plain | (x / 32 % 16)
    } else {
        plain
    }
}

impl Replay<'_> {
    // Puts bytes behind the file, as far as the buffer reaches.
    fn put(&mut self, bytes: &[u8]) {
        for byte in bytes {
            if let Some(place) = self.file.get_mut(self.length) {
                *place = *byte;
            }
            self.length = self.length.wrapping_add(1);
        }
    }

    // Begins a file with its first five bytes: the first one, and how many parts it names.
    pub fn put_head(&mut self, first: u32, parts: u32) {
        self.length = 0;
        self.put(&first.to_le_bytes()[..1]);
        self.put(&parts.to_le_bytes());
    }

    // Puts a record: the bit map byte, and the fields whose bits stand.
    pub fn put_record(&mut self, fields: Fields) {
        let bits = fields.bits;
        self.put(&bits.to_le_bytes()[..1]);
        if bits & 1 != 0 {
            self.put(&fields.item.to_le_bytes()[..2]);
        }
        if bits & 2 != 0 {
            self.put(&fields.zero.to_le_bytes());
        }
        if bits & 4 != 0 {
            self.put(&fields.one.to_le_bytes());
        }
    }

    // Draws and puts the record with a local number; gives its item.
    fn craft_record(&mut self, mask: u32, before: u32, local: u32) -> u32 {
        let a = step(self.draw);
        let b = step(a);
        let c = step(b);
        let d = step(c);
        let item = craft_item(a | mask, before, self.store.limit);
        let zero = craft_zero(b | mask, local);
        let one = craft_one(c | mask, local);
        let item_bit = u32::from(item != before.wrapping_add(1));
        let zero_bit = 2 * u32::from(zero != 0);
        let one_bit = 4 * u32::from(one != local.wrapping_sub(1));
        let bits = craft_bits(d | mask, item_bit | zero_bit | one_bit);
        self.put_record(Fields {
            bits,
            item,
            zero,
            one,
        });
        self.draw = d;
        item
    }

    // Draws a file of so many records for this store at the front of the buffer, and writes it; seldom its first byte or the
    // number of parts that it names is another, or a byte of the buffer follows it.
    fn craft(&mut self, rt: &impl Print, drawn: Drawn, parts: u32, mask: u32) -> io::Result<()> {
        let way = (drawn.b | mask) % 32;
        match way {
            0 => self.put_head(drawn.c, parts),
            1 => self.put_head(1, parts.wrapping_add(1)),
            2 => self.put_head(1, parts.wrapping_sub(1)),
            _ => self.put_head(1, parts),
        }
        self.draw = drawn.d;
        let mut item = 0;
        for local in 2..parts.wrapping_add(2) {
            item = self.craft_record(mask, item, local);
        }
        if way == 3 {
            self.length = self.length.wrapping_add(1);
        }
        self.file_line(rt, "Craft")
    }

    // Draws a file of a few records.
    pub fn craft_short(&mut self, rt: &impl Print, drawn: Drawn) -> io::Result<()> {
        self.craft(rt, drawn, 1 + drawn.a % 6, 0)
    }

    // Draws a true file of 200 parts.
    pub fn craft_tall(&mut self, rt: &impl Print) -> io::Result<()> {
        self.craft(rt, draw(self.draw), 200, 56)
    }
}
