// A larger store: all subsets of 63 and of 64 items, and the first and the last item.
use crate::call::Call;
use crate::lent::Lent;
use op_promise::Operation;
use std::io;
use store::record::Store;

// The first and the last item, and the numbers beside them.
const CALLS: [Call; 4] = [
    Call(Operation::Change, 1, 1),
    Call(Operation::Change, 1, 512),
    Call(Operation::Change, 1, 0),
    Call(Operation::Change, 1, 513),
];

// Runs an operation; gives the handle, that of {} for a refusal.
fn handle(lent: &mut Lent, op: Operation, p: u32, q: u32) -> u32 {
    lent.operate(Call(op, p, q))
        .map_or(0, |placement| placement.handle)
}

// The lines of the larger store.
pub fn lines(rt: &impl Print) -> io::Result<()> {
    let mut lent = Lent {
        store: Store::new(0, 0),
        nodes: &mut [0; 600],
        lookup: &mut [0; 401],
        cache: &mut [0; 1024],
    };
    let _ = lent.fresh(512);
    let mut all = 1;
    for item in 1..=64 {
        let each = handle(&mut lent, Operation::Change, all, item);
        all = handle(&mut lent, Operation::Union, all, each);
        if 63 <= item {
            print!(rt; "All subsets of {item} items: ")?;
            lent.size(rt, all)?;
        }
    }
    lent.operations(rt, &CALLS)
}
