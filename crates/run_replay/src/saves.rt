// The lines of Save.
use crate::lend::Lent;
use crate::output::{answer, record, told};
use crate::replay::Replay;
use crate::sums::{MARK, kept, sum_of};
use file_save::save;
use std::io;
use store::record::Refusal;

// From where on the scratch must be as before: after 10, 4, 11 and 7 all of it, else what is past the needed words.
pub fn free_until<T: Copy>(answer: Result<T, Refusal>, needed: usize) -> usize {
    match answer {
        Err(Refusal::Damaged | Refusal::Handle | Refusal::Weights | Refusal::Scratch) => 0,
        _ => needed,
    }
}

impl Replay<'_> {
    // Saves p into so many bytes, in so many words of scratch, and writes the line.
    fn save_line(
        &mut self,
        rt: &impl Print,
        p: u32,
        words: usize,
        bytes: usize,
        lent: Lent,
    ) -> io::Result<Result<usize, Refusal>> {
        let mut links = [MARK; 1100];
        let slots = lent.slots.min(self.lookup.len());
        let part = words.min(1100);
        let out = bytes.min(self.file.len());
        let lookup = &mut self.lookup[..slots];
        let file = &mut self.file[..out];
        let nodes = &mut *self.nodes;
        let saved = save(lent.record, nodes, lookup, p, &mut links[..part], file);
        print!(rt; "Save {p} lent {slots} {part} {out}:")?;
        answer(rt, saved.answer)?;
        let free = free_until(saved.answer, saved.store.count as usize);
        print!(rt; " kept {}", told(kept(&links, free, MARK)))?;
        record(rt, saved.store)?;
        println!(rt; " sum {:08x}", sum_of(self.file))?;
        Ok(saved.answer)
    }

    // Writes the bytes of the file in the buffer.
    pub fn file_line(&self, rt: &impl Print, name: &str) -> io::Result<()> {
        print!(rt; "{name}")?;
        for byte in self.file.iter().take(self.length) {
            print!(rt; " {byte:02x}")?;
        }
        println!(rt; "")
    }

    // Saves p; where that gives a length, writes the file, and saves again into just that many bytes and into one less.
    pub fn save(
        &mut self,
        rt: &impl Print,
        p: u32,
        words: usize,
        bytes: usize,
        lent: Lent,
    ) -> io::Result<()> {
        if let Ok(length) = self.save_line(rt, p, words, bytes, lent)? {
            self.length = length;
            self.file_line(rt, "File")?;
            for room in [length, length.wrapping_sub(1)] {
                let _ = self.save_line(rt, p, words, room, lent)?;
            }
        }
        Ok(())
    }
}
