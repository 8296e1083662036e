// Stores of different limits: the items that they take, and a file that goes from one to the other.
use crate::call::Call;
use crate::lent::{Lent, refused};
use combination::Combination;
use op_promise::Operation;
use std::io;
use store::record::Store;

// The largest item of the pocket tester and the one above it.
const CALLS: [Call; 2] = [
    Call(Operation::Change, 1, 64),
    Call(Operation::Change, 1, 65),
];

// Fresh with a limit, with its line.
fn fresh_line(rt: &impl Print, lent: &mut Lent, limit: u32) -> io::Result<()> {
    let answer = lent.fresh(limit);
    let store = lent.store;
    print!(rt;
        "Fresh with limit {limit}: record {}, {}, {}",
        store.capacity, store.count, store.limit
    )?;
    match answer {
        Ok(()) => println!(rt; ""),
        Err(refusal) => {
            print!(rt; ",")?;
            refused(rt, refusal)
        }
    }
}

// A store of limit 512 takes both items; their files.
fn final_test(rt: &impl Print, lent: &mut Lent, low: &mut [u8], high: &mut [u8]) -> io::Result<()> {
    fresh_line(rt, lent, 512)?;
    lent.operations(rt, &CALLS)?;
    lent.save(rt, 2, low)?;
    lent.save(rt, 3, high)
}

// A store of limit 64 takes only the lower item; its file, a combination that it cannot hold, and the files of the other
// store.
fn pocket(rt: &impl Print, lent: &mut Lent, low: &[u8], high: &[u8]) -> io::Result<()> {
    let item_65 = Combination { words: [0; 16] }.including(65);
    fresh_line(rt, lent, 64)?;
    lent.operations(rt, &CALLS)?;
    lent.save(rt, 2, &mut [0; 16])?;
    lent.has(rt, 2, "{65}", item_65)?;
    lent.load(rt, low)?;
    lent.load(rt, high)
}

// The lines of the limits, one after the other on the same words.
pub fn lines(rt: &impl Print) -> io::Result<()> {
    let mut lent = Lent {
        store: Store::new(0, 0),
        nodes: &mut [0; 12],
        lookup: &mut [0; 7],
        cache: &mut [0; 64],
    };
    let mut low = [0; 8];
    let mut high = [0; 8];
    fresh_line(rt, &mut lent, 0)?;
    fresh_line(rt, &mut lent, 513)?;
    final_test(rt, &mut lent, &mut low, &mut high)?;
    pocket(rt, &mut lent, &low, &high)?;
    print!(rt; "With record 4, 0, 513: ")?;
    lent.store = Store::new(4, 513);
    lent.operations(rt, &CALLS[..1])
}
