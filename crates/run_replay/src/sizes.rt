// The lines of Size by either entry.
use crate::draw::{Drawn, draw, handle};
use crate::lend::{Lent, about};
use crate::output::{answer, record, told};
use crate::parts::needed;
use crate::replay::Replay;
use crate::sums::{WIDE_MARK, kept, sum_of};
use query_size::size;
use query_size_compact::call::size_compact;
use std::{fmt, io};
use store::record::Refusal;

// The entries of Size.
#[derive(Clone, Copy)]
enum Entry {
    First,
    Compact,
}

impl fmt::Display for Entry {
    fn fmt<W: fmt::Write>(&self, f: &mut fmt::Formatter<W>) -> fmt::Result {
        match self {
            Entry::First => write!(f, "Size"),
            Entry::Compact => write!(f, "Size compact"),
        }
    }
}

// From where on the second entry leaves the scratch as before: after a refusal with 10 and 4 all of it, else what was
// not lent.
fn free_until(answer: Result<u64, Refusal>, part: usize) -> usize {
    match answer {
        Err(Refusal::Damaged | Refusal::Handle) => 0,
        _ => part,
    }
}

// A handle: every fourth time one of the first eight, mostly a small family, else as for any call.
fn asked(drawn: Drawn, count: u32) -> u32 {
    if drawn.b % 4 == 0 {
        drawn.b / 4 % 8
    } else {
        handle(drawn.a, count)
    }
}

impl Replay<'_> {
    // Asks an entry for p in lent scratch and writes the line, of the first with the sum of the scratch, of the second with
    // whether the words that are not free are as before.
    fn measured(
        &self,
        rt: &impl Print,
        entry: Entry,
        p: u32,
        words: usize,
        lent: Lent,
        scratch: &mut [u64],
    ) -> io::Result<Result<u64, Refusal>> {
        let slots = lent.slots.min(self.lookup.len());
        let lookup = &self.lookup[..slots];
        let part = words.min(scratch.len());
        let room = &mut scratch[..part];
        let measured = match entry {
            Entry::First => size(lent.record, self.nodes, lookup, p, room),
            Entry::Compact => size_compact(lent.record, self.nodes, lookup, p, room),
        };
        print!(rt; "{entry} {p} lent {slots} {part}:")?;
        answer(rt, measured.answer)?;
        record(rt, measured.store)?;
        match entry {
            Entry::First => println!(rt; " sum {:08x}", sum_of(scratch))?,
            Entry::Compact => {
                let from = free_until(measured.answer, part);
                println!(rt; " kept {}", told(kept(scratch, from, WIDE_MARK)))?;
            }
        }
        Ok(measured.answer)
    }

    // Asks the first entry for p and writes the line.
    pub fn size(&self, rt: &impl Print, p: u32, words: usize, lent: Lent) -> io::Result<()> {
        let _ = self.measured(rt, Entry::First, p, words, lent, &mut [WIDE_MARK; 1100])?;
        Ok(())
    }

    // Asks the second entry for p and writes the line.
    fn size_compact(&self, rt: &impl Print, p: u32, words: usize, lent: Lent) -> io::Result<()> {
        let _ = self.measured(rt, Entry::Compact, p, words, lent, &mut [WIDE_MARK; 2200])?;
        Ok(())
    }

    // Scratch about what the second entry needs for p.
    fn about(&self, p: u32) -> [usize; 8] {
        about(needed(p, self.store.count, self.nodes), 2200)
    }

    // Asks both entries for p, the second in scratch about its need, by a way, and writes the lines.
    pub fn both_sizes(&self, rt: &impl Print, way: u32, p: u32, lent: Lent) -> io::Result<()> {
        let words = self.about(p)[way as usize % 8];
        self.size_compact(rt, p, words, lent)?;
        self.size(rt, p, 1100, lent)
    }

    // Asks the second entry for p, everything being lent, in scratch about its need in each way, and writes the lines.
    pub fn every_size(&self, rt: &impl Print, p: u32) -> io::Result<()> {
        for words in self.about(p) {
            self.size_compact(rt, p, words, self.everything())?;
        }
        Ok(())
    }

    // Asks both entries for a drawn family and writes the lines. These are drawn apart, so that the calls are drawn as they
    // would be without them.
    pub fn drawn_sizes(&self, rt: &impl Print) -> io::Result<()> {
        let drawn = draw(self.draw ^ 2863311530);
        let p = asked(drawn, self.store.count);
        self.both_sizes(rt, drawn.c, p, self.lend(drawn.d, 0))
    }

    // Measures p with all scratch and writes the line; gives whether no more than 4096 members have to be gone through: the
    // size is not above that, or p is refused whatever its size.
    pub fn few(&self, rt: &impl Print, p: u32, lent: Lent) -> io::Result<bool> {
        match self.measured(rt, Entry::First, p, 1100, lent, &mut [WIDE_MARK; 1100])? {
            Ok(members) => Ok(members <= 4096),
            Err(Refusal::Large) => Ok(false),
            Err(_) => Ok(true),
        }
    }
}
