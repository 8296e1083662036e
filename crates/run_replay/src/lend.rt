// The record handed in, and how much of the words is lent.
use store::record::Store;

// What a call is handed besides its own arguments: the record, and how much of the lookup and of the cache.
#[derive(Clone, Copy)]
pub struct Lent {
    pub record: Store,
    pub slots: usize,
    pub cache: usize,
}

// The record: seldom one that does not fit the words, or whose limit is none.
pub fn handed(x: u32, store: Store) -> Store {
    let above = store.capacity.wrapping_add(1);
    let under = store.capacity.wrapping_sub(1);
    match x % 64 {
        0 => Store {
            capacity: above,
            ..store
        },
        1 => Store {
            capacity: under,
            ..store
        },
        2 => Store {
            count: above,
            ..store
        },
        4 => Store { limit: 0, ..store },
        5 => Store {
            limit: 513,
            ..store
        },
        6 => Store {
            limit: u32::MAX,
            ..store
        },
        _ => store,
    }
}

// The lookup: seldom only as much of it as the capacity.
pub fn slots(x: u32, capacity: u32, length: usize) -> usize {
    if x % 64 == 3 {
        length.min(capacity as usize)
    } else {
        length
    }
}

// The cache: none, a part, or all.
pub fn part(x: u32, length: usize) -> usize {
    match x % 8 {
        0 => 0,
        1..=2 => (x as usize / 8)
            .checked_rem(length.wrapping_add(1))
            .unwrap_or(0),
        _ => length,
    }
}

// Scratch about a need: none, half of it, two words or one too few, just enough, one or two more, or all that there is.
pub fn about(needed: usize, all: usize) -> [usize; 8] {
    [
        0,
        needed / 2,
        needed.saturating_sub(2),
        needed.saturating_sub(1),
        needed,
        needed.wrapping_add(1),
        needed.wrapping_add(2),
        all,
    ]
}

// Scratch for so many words: seldom one too few or just enough, else all that there is.
pub fn scratch(x: u32, needed: usize, all: usize) -> usize {
    match x % 8 {
        0 => needed.saturating_sub(1),
        1 => needed,
        _ => all,
    }
}
