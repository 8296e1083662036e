// Lists of weights.
use crate::draw::{Drawn, item, step};
use std::fmt;

// How the weights of a list are made: all the same, below 10, any, or mostly 0.
#[derive(Clone, Copy)]
pub enum Way {
    Same(u32),
    BelowTen,
    Any,
    Few,
}

// An item whose weight is another than its list has.
#[derive(Clone, Copy)]
pub struct Apart {
    pub item: u32,
    pub value: u32,
}

// How a list is made and how long it is: a way, what it is drawn from, and an item apart.
#[derive(Clone, Copy)]
pub struct Weights {
    pub way: Way,
    pub draw: u32,
    pub apart: Option<Apart>,
    pub long: usize,
}

// The lists: of each way; then but for an item: with 0 everywhere else the item weighs 1 or as much as can be, and with 1
// everywhere else as much as can be.
pub const LISTS: [(Way, Option<u32>); 9] = [
    (Way::Same(0), None),
    (Way::Same(1), None),
    (Way::Same(u32::MAX), None),
    (Way::BelowTen, None),
    (Way::Any, None),
    (Way::Few, None),
    (Way::Same(0), Some(1)),
    (Way::Same(0), Some(u32::MAX)),
    (Way::Same(1), Some(u32::MAX)),
];

// A length: 512, seldom another.
fn long_of(x: u32) -> usize {
    match x % 16 {
        0 => 511,
        1 => 513,
        2 => 0,
        _ => 512,
    }
}

impl Way {
    // A weight by what is drawn for it.
    fn weight(self, x: u32) -> u32 {
        match self {
            Way::Same(weight) => weight,
            Way::BelowTen => x % 10,
            Way::Any => x,
            Way::Few if x % 4 == 0 => x,
            Way::Few => 0,
        }
    }
}

impl Weights {
    // A list with an item apart where it has one; no list has the item 0.
    pub fn listed(list: (Way, Option<u32>), item: u32, draw: u32, long: usize) -> Weights {
        let (way, value) = list;
        Weights {
            way,
            draw,
            apart: value
                .filter(|_| item != 0)
                .map(|value| Apart { item, value }),
            long,
        }
    }

    // A drawn list.
    pub fn drawn(drawn: Drawn, items: u32, limit: u32) -> Weights {
        let apart = item(drawn.b / 9, items, limit);
        Weights::listed(
            LISTS[drawn.b as usize % 9],
            apart,
            drawn.b,
            long_of(drawn.c / 8),
        )
    }

    // Fills a list of the items from 1 on.
    pub fn fill(self, list: &mut [u32]) {
        let mut draw = self.draw;
        for weight in list.iter_mut() {
            draw = step(draw);
            *weight = self.way.weight(draw);
        }
        if let Some(Apart { item, value }) = self.apart
            && let Some(weight) = list.get_mut((item as usize).wrapping_sub(1))
        {
            *weight = value;
        }
    }
}

impl fmt::Display for Weights {
    fn fmt<W: fmt::Write>(&self, f: &mut fmt::Formatter<W>) -> fmt::Result {
        let draw = self.draw;
        match self.way {
            Way::Same(weight) => write!(f, "all {weight}")?,
            Way::BelowTen => write!(f, "below 10 from {draw}")?,
            Way::Any => write!(f, "any from {draw}")?,
            Way::Few => write!(f, "few from {draw}")?,
        }
        if let Some(Apart { item, value }) = self.apart {
            write!(f, " but {item} at {value}")?;
        }
        Ok(())
    }
}
