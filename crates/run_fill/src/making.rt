// Making many nodes with one call each, and some with unions.
use crate::lent::Words;
use op_families::calls::union;
use op_items::calls::change;
use store::record::{Answered, Placement, Refusal, Store};

// What the calls of a phase are.
#[derive(Clone, Copy)]
pub enum Kind {
    // Changes, each with one node more, that make the combinations of one item and then those of two.
    Changes,
    // Changes again, from the first combination of two items on.
    Again,
    // Unions of a family of single items with the next single item, with as many nodes more as the family has items.
    Unions,
}

// Kept: a single item is a pair with 0, so that the same step goes on to the next of either kind.
// A combination of at most two items, the lower one first and 0 where there is one.
#[derive(Clone, Copy)]
pub struct Pair {
    low: u32,
    high: u32,
}

impl Pair {
    // The next combination: first the 512 of one item, then the pairs.
    fn next(self) -> Pair {
        match self {
            Pair { low: 0, high: 512 } => Pair { low: 1, high: 2 },
            Pair { low: 0, high } => Pair {
                low: 0,
                high: high.wrapping_add(1),
            },
            Pair { low, high } if low.wrapping_add(1) == high => Pair {
                low: 1,
                high: high.wrapping_add(1),
            },
            Pair { low, high } => Pair {
                low: low.wrapping_add(1),
                high,
            },
        }
    }
}

// The record and the answer last given; how many nodes the phase added; the next combination; the handle of a family of
// single items, and the item that is next for it.
#[derive(Clone, Copy)]
pub struct Progress {
    pub store: Store,
    pub answer: Result<Placement, Refusal>,
    pub added: u32,
    pair: Pair,
    singles: u32,
    item: u32,
}

impl Progress {
    // What comes before the first call. The handle is that of item 400: single items have the handles 2 to 513.
    pub fn start(store: Store) -> Progress {
        Progress {
            store,
            answer: Ok(Placement {
                handle: 1,
                added: 0,
            }),
            added: 0,
            pair: Pair { low: 0, high: 1 },
            singles: 401,
            item: 399,
        }
    }

    // The same with what a call gave.
    fn with(self, answered: Answered<Placement>) -> Progress {
        let added = answered.answer.map_or(0, |placement| placement.added);
        Progress {
            store: answered.store,
            answer: answered.answer,
            added: self.added.wrapping_add(added),
            ..self
        }
    }

    // The change that makes the next combination from its lower item's, or from the empty one.
    fn changed(self, words: &mut Words) -> Progress {
        let nodes = &mut *words.nodes;
        let lookup = &mut *words.lookup;
        let cache = &mut *words.cache;
        let answered = change(
            self.store,
            nodes,
            lookup,
            cache,
            self.pair.low.wrapping_add(1),
            self.pair.high,
        );
        Progress {
            pair: self.pair.next(),
            ..self.with(answered)
        }
    }

    // The union with the next single item.
    fn united(self, words: &mut Words) -> Progress {
        let nodes = &mut *words.nodes;
        let lookup = &mut *words.lookup;
        let cache = &mut *words.cache;
        let answered = union(
            self.store,
            nodes,
            lookup,
            cache,
            self.singles,
            self.item.wrapping_add(1),
        );
        let singles = answered.answer.map_or(0, |placement| placement.handle);
        Progress {
            singles,
            item: self.item.wrapping_sub(1),
            ..self.with(answered)
        }
    }

    // So many calls of a kind.
    pub fn calls(self, kind: Kind, number: u32, words: &mut Words) -> Progress {
        let pair = match kind {
            Kind::Again => Pair { low: 1, high: 2 },
            Kind::Changes | Kind::Unions => self.pair,
        };
        let mut at = Progress {
            added: 0,
            pair,
            ..self
        };
        for _ in 0..number {
            at = match kind {
                Kind::Unions => at.united(words),
                Kind::Changes | Kind::Again => at.changed(words),
            };
        }
        at
    }
}
