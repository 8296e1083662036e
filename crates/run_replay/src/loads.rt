// The line of Load.
use crate::lend::Lent;
use crate::output::told;
use crate::placing::given;
use crate::replay::Replay;
use crate::saves::free_until;
use crate::sums::{MARK, kept, sum_of};
use file_load::load;
use std::io;

// How many bytes are read: mostly the last file's, seldom none, one less, one more, or any number.
pub fn taken(x: u32, last: usize, all: usize) -> usize {
    match x % 16 {
        0 => 0,
        1 => last.wrapping_sub(1),
        2 => last.wrapping_add(1),
        3 => (x as usize / 16)
            .checked_rem(all.wrapping_add(1))
            .unwrap_or(0),
        _ => last,
    }
}

// The scratch that so many bytes need.
pub fn needed(bytes: usize) -> usize {
    if 4096 < bytes { 0 } else { 6 * bytes }
}

impl Replay<'_> {
    // Loads the first bytes of the buffer in a part of the scratch and writes the line.
    pub fn load(
        &mut self,
        rt: &impl Print,
        bytes: usize,
        words: usize,
        lent: Lent,
    ) -> io::Result<()> {
        let mut scratch = [MARK; 12400];
        let slots = lent.slots.min(self.lookup.len());
        let part = lent.cache.min(self.cache.len());
        let read = bytes.min(self.file.len());
        let room = words.min(12400);
        let lookup = &mut self.lookup[..slots];
        let cache = &mut self.cache[..part];
        let file = &mut self.file[..read];
        let before = sum_of(cache);
        let words = &mut scratch[..room];
        let placed = load(lent.record, self.nodes, lookup, cache, file, words);
        print!(rt; "Load {read} lent {slots} {part} {room}:")?;
        given(rt, placed, &self.cache[..part], before)?;
        let free = free_until(placed.answer, needed(read));
        println!(rt;
            " sum {:08x} kept {}",
            self.sum(),
            told(kept(&scratch, free, MARK))
        )?;
        self.take(placed);
        Ok(())
    }

    // Loads the first bytes of the buffer with everything lent.
    pub fn load_all(&mut self, rt: &impl Print, bytes: usize, words: usize) -> io::Result<()> {
        let lent = self.everything();
        self.load(rt, bytes, words, lent)
    }
}
