// The lines of Audit.
use crate::draw::Drawn;
use crate::lend::Lent;
use crate::output::{record, told};
use crate::replay::Replay;
use crate::sums::cleared;
use std::{fmt, io, mem};
use store::record::Store;
use store_audit::audit::audit;

// What is changed before an Audit: nothing, a node word or a slot to another number, or the limit in the record.
#[derive(Clone, Copy)]
enum Change {
    Nothing,
    Node(usize, u32),
    Slot(usize, u32),
    Limit(u32),
}

impl fmt::Display for Change {
    fn fmt<W: fmt::Write>(&self, f: &mut fmt::Formatter<W>) -> fmt::Result {
        match *self {
            Change::Nothing => Ok(()),
            Change::Node(at, value) => write!(f, " with node word {at} {value}"),
            Change::Slot(at, value) => write!(f, " with slot {at} {value}"),
            Change::Limit(limit) => write!(f, " with limit {limit}"),
        }
    }
}

// Sets a word and gives the one that stood there.
fn exchange(words: &mut [u32], at: usize, value: u32) -> u32 {
    match words.get_mut(at) {
        Some(word) => mem::replace(word, value),
        None => value,
    }
}

impl Replay<'_> {
    // The largest item of the nodes that are held.
    fn largest(&self) -> u32 {
        let items = self.nodes.chunks(3).filter_map(|node| node.first());
        items
            .take(self.store.count as usize)
            .copied()
            .max()
            .unwrap_or(0)
    }

    // None, a node word or a slot to a small number, or the largest item held or one less as the limit.
    fn drawn_change(&self, drawn: Drawn) -> Change {
        let value = drawn.b % 8;
        let place = drawn.a as usize;
        match drawn.d / 64 % 4 {
            0 => Change::Node(place.checked_rem(self.nodes.len()).unwrap_or(0), value),
            1 => Change::Slot(place.checked_rem(self.lookup.len()).unwrap_or(0), value),
            2 => Change::Limit(self.largest().wrapping_sub(drawn.b % 2)),
            _ => Change::Nothing,
        }
    }

    // Changes a word, if it is one that is to be changed; gives the change back.
    fn change(&mut self, change: Change) -> Change {
        match change {
            Change::Node(at, value) => Change::Node(at, exchange(self.nodes, at, value)),
            Change::Slot(at, value) => Change::Slot(at, exchange(self.lookup, at, value)),
            _ => change,
        }
    }

    // Audits the store and writes the rest of the line.
    fn audited(&mut self, rt: &impl Print, lent: Lent) -> io::Result<()> {
        let slots = lent.slots.min(self.lookup.len());
        let part = lent.cache.min(self.cache.len());
        let nodes = &mut *self.nodes;
        let lookup = &mut self.lookup[..slots];
        let cache = &mut self.cache[..part];
        let audited = audit(lent.record, nodes, lookup, cache);
        print!(rt; " lent {slots} {part}: {}", told(audited.sound))?;
        record(rt, audited.store)?;
        println!(rt; " cleared {}", told(cleared(cache)))
    }

    // Audits the store as it is or with a drawn change, which is then undone.
    pub fn audit(&mut self, rt: &impl Print, drawn: Drawn, lent: Lent) -> io::Result<()> {
        let change = self.drawn_change(drawn);
        let record = match change {
            Change::Limit(limit) => Store {
                limit,
                ..lent.record
            },
            _ => lent.record,
        };
        let back = self.change(change);
        print!(rt; "Audit{change}")?;
        self.audited(rt, Lent { record, ..lent })?;
        self.change(back);
        Ok(())
    }
}
