// The lines of the two sums of weights.
use crate::draw::{draw, handle};
use crate::lend::{Lent, scratch};
use crate::output::{answer, record, told};
use crate::replay::Replay;
use crate::saves::free_until;
use crate::sums::{MARK, WIDE_MARK, kept};
use crate::weights::{LISTS, Weights};
use query_weight::calls::{weight_by_members, weight_by_nodes};
use std::{fmt, io};
use store::record::Store;

// What a sum goes over.
#[derive(Clone, Copy)]
pub enum By {
    Members,
    Nodes,
}

impl fmt::Display for By {
    fn fmt<W: fmt::Write>(&self, f: &mut fmt::Formatter<W>) -> fmt::Result {
        match self {
            By::Members => write!(f, "members"),
            By::Nodes => write!(f, "nodes"),
        }
    }
}

// What is asked: the family, the weights, how many words of scratch are lent, and what else is.
#[derive(Clone, Copy)]
pub struct Weighing {
    pub p: u32,
    pub weights: Weights,
    pub words: usize,
    pub lent: Lent,
}

// Both sums; by members only of a family of few.
fn sums(few: bool) -> &'static [By] {
    if few {
        &[By::Members, By::Nodes]
    } else {
        &[By::Nodes]
    }
}

impl Replay<'_> {
    // Asks for a sum and writes the line.
    fn weigh(&self, rt: &impl Print, by: By, asked: Weighing) -> io::Result<()> {
        let Weighing {
            p,
            weights,
            words,
            lent,
        } = asked;
        let mut list = [0; 513];
        let mut scratch = [WIDE_MARK; 3300];
        weights.fill(&mut list);
        let slots = lent.slots.min(self.lookup.len());
        let long = weights.long.min(513);
        let part = words.min(3300);
        let lookup = &self.lookup[..slots];
        let list = &list[..long];
        let room = &mut scratch[..part];
        let weighed = match by {
            By::Members => weight_by_members(lent.record, self.nodes, lookup, p, list, room),
            By::Nodes => weight_by_nodes(lent.record, self.nodes, lookup, p, list, room),
        };
        print!(rt; "Weight by {by} {p} weights {weights} lent {slots} {long} {part}:")?;
        answer(rt, weighed.answer)?;
        let free = free_until(weighed.answer, 3 * weighed.store.count as usize);
        print!(rt; " kept {}", told(kept(&scratch, free, WIDE_MARK)))?;
        record(rt, weighed.store)?;
        println!(rt; "")
    }

    // Asks for sums and writes the lines.
    pub fn weigh_by(&self, rt: &impl Print, sums: &[By], asked: Weighing) -> io::Result<()> {
        for by in sums {
            self.weigh(rt, *by, asked)?;
        }
        Ok(())
    }

    // Measures p by both entries, asks for both sums with each list, and writes the lines; everything is lent.
    pub fn weigh_every(&self, rt: &impl Print, p: u32, item: u32) -> io::Result<()> {
        let lent = self.everything();
        self.every_size(rt, p)?;
        let sums = sums(self.few(rt, p, lent)?);
        for list in LISTS {
            let weights = Weights::listed(list, item, self.draw, 512);
            self.weigh_by(
                rt,
                sums,
                Weighing {
                    p,
                    weights,
                    words: 3300,
                    lent,
                },
            )?;
        }
        Ok(())
    }

    // Measures a drawn family, asks for both sums and writes the lines. These are drawn apart, so that the calls are drawn
    // as they would be without them.
    pub fn drawn_weights(&self, rt: &impl Print, items: u32) -> io::Result<()> {
        let drawn = draw(self.draw ^ MARK);
        let Store { count, limit, .. } = self.store;
        let p = handle(drawn.a, count);
        let lent = self.lend(drawn.d, 0);
        let weights = Weights::drawn(drawn, items, limit);
        let words = scratch(drawn.c, 3 * count as usize, 3300);
        let sums = sums(self.few(rt, p, lent)?);
        self.weigh_by(
            rt,
            sums,
            Weighing {
                p,
                weights,
                words,
                lent,
            },
        )
    }
}
