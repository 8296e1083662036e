// What goes from call to call.
use crate::lend::{Lent, handed, slots};
use crate::sums::{sum_from, sum_of};
use store::record::{Answered, Placement, Store};

// The draw; the record last given back, its words, and the nodes added since Fresh; and a buffer, with the length of the
// file in it.
#[derive(Drop)]
pub struct Replay<'a> {
    pub draw: u32,
    pub store: Store,
    pub added: u32,
    pub nodes: &'a mut [u32],
    pub lookup: &'a mut [u32],
    pub cache: &'a mut [u32],
    pub file: &'a mut [u8],
    pub length: usize,
}

impl Replay<'_> {
    // Takes over what a call that places gave: with a handle the record given back and the nodes added.
    pub fn take(&mut self, placed: Answered<Placement>) {
        if let Ok(placement) = placed.answer {
            self.store = placed.store;
            self.added = self.added.wrapping_add(placement.added);
        }
    }

    // The handle of the newest family.
    pub fn newest(&self) -> u32 {
        self.store.count.wrapping_add(1)
    }

    // The sum of the node words and the lookup.
    pub fn sum(&self) -> u32 {
        sum_from(sum_of(self.nodes), self.lookup)
    }

    // Lends everything.
    pub fn everything(&self) -> Lent {
        Lent {
            record: self.store,
            slots: self.lookup.len(),
            cache: self.cache.len(),
        }
    }

    // Draws what is lent, but for the cache.
    pub fn lend(&self, x: u32, cache: usize) -> Lent {
        Lent {
            record: handed(x, self.store),
            slots: slots(x, self.store.capacity, self.lookup.len()),
            cache,
        }
    }
}
