// Families about the largest size and the largest sum of weights, most of simple shapes.
use crate::craft::Fields;
use crate::placing::Call;
use crate::replay::Replay;
use crate::weighing::{By, Weighing};
use crate::weights::{Apart, Way, Weights};
use op_promise::Operation;
use std::io;

// A family: of the items up to `free` all subsets, each with the items up to `fixed`; besides these each item up to
// `single` alone; and in each of all these the items up to `all`.
#[derive(Clone, Copy)]
struct Shape {
    free: u32,
    fixed: u32,
    single: u32,
    all: u32,
}

impl Shape {
    // All subsets of so many items.
    fn subsets(items: u32) -> Shape {
        Shape {
            free: items,
            fixed: items,
            single: items,
            all: items,
        }
    }

    // The record of an item's part; the part before it has the item's number.
    fn record(self, item: u32) -> Fields {
        let plain = Fields {
            bits: 0,
            item,
            zero: item,
            one: item,
        };
        if self.fixed < item && item <= self.single {
            Fields {
                bits: 6,
                one: 1,
                ..plain
            }
        } else if item <= self.free {
            Fields { bits: 2, ..plain }
        } else {
            plain
        }
    }
}

// With all weights 2^32 - 1 but item 270 at 1.
const EDGE: Weights = Weights {
    way: Way::Same(u32::MAX),
    draw: 1,
    apart: Some(Apart {
        item: 270,
        value: 1,
    }),
    long: 512,
};

impl Replay<'_> {
    // The sums of the newest family with an item apart, the last in one scratch word too few and in just enough, there by
    // these.
    fn shape_sums(&self, rt: &impl Print, item: u32, by: &[By]) -> io::Result<()> {
        let p = self.newest();
        let lent = self.everything();
        let needed = 3 * self.store.count as usize;
        self.weigh_every(rt, p, item)?;
        let edge = Weighing {
            p,
            weights: EDGE,
            words: needed,
            lent,
        };
        let short = Weighing {
            words: needed.wrapping_sub(1),
            ..edge
        };
        self.weigh_by(rt, &[By::Nodes], short)?;
        self.weigh_by(rt, by, edge)
    }

    // Loads the family of a shape, and writes its sums.
    fn shape(&mut self, rt: &impl Print, shape: Shape, by: &[By]) -> io::Result<()> {
        self.put_head(1, shape.all);
        for item in 1..=shape.all {
            self.put_record(shape.record(item));
        }
        self.file_line(rt, "Craft")?;
        self.load_all(rt, self.length, 12400)?;
        self.shape_sums(rt, shape.all, by)
    }

    // Makes a family by an operation, and writes its sums with an item apart.
    fn shape_by(
        &mut self,
        rt: &impl Print,
        op: Operation,
        p: u32,
        q: u32,
        item: u32,
    ) -> io::Result<()> {
        self.place_all(rt, Call::Operate(op, p, q))?;
        self.shape_sums(rt, item, &[By::Nodes])
    }

    // {512}; all subsets of 32 items, 2^32 - 1 members, and these with an item; all subsets of 63, 64 and 65 items; 2^32 + 1
    // members that hold an item, alone and beside more than can be counted; 2^64 members that hold an item; and two of some
    // 2^24 members, in all 2^32 + 1 items, and these with one member more: their sums at the edge are 2^64 - 1 and 2^64.
    pub fn shapes(&mut self, rt: &impl Print) -> io::Result<()> {
        let nodes = &[By::Nodes];
        self.shape_by(rt, Operation::Change, 1, 512, 512)?;
        self.shape(rt, Shape::subsets(32), nodes)?;
        self.shape_by(rt, Operation::Diff, self.newest(), 1, 32)?;
        self.shape_by(rt, Operation::Change, self.newest(), 33, 33)?;
        for items in 63..=65 {
            self.shape(rt, Shape::subsets(items), nodes)?;
        }
        let uncounted = self.newest();
        let held = Shape {
            single: 33,
            all: 66,
            ..Shape::subsets(32)
        };
        self.shape(rt, held, nodes)?;
        self.shape_by(rt, Operation::Union, uncounted, self.newest(), 66)?;
        self.shape(
            rt,
            Shape {
                all: 65,
                ..Shape::subsets(64)
            },
            nodes,
        )?;
        for last in 269..=270 {
            let shape = Shape {
                free: 24,
                fixed: 268,
                single: last,
                all: last,
            };
            self.shape(rt, shape, &[By::Members, By::Nodes])?;
        }
        Ok(())
    }
}
