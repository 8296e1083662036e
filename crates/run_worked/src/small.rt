// The worked store: 12 node words, 7 lookup words.
use crate::call::Call;
use crate::lent::{Lent, refused};
use combination::Combination;
use op_promise::Operation;
use std::io;
use store::record::Store;
use table::start::start_slot;

// The operations in the order of document 01.
const CALLS: [Call; 11] = [
    Call(Operation::Change, 1, 1),
    Call(Operation::Change, 1, 2),
    Call(Operation::Union, 2, 3),
    Call(Operation::Union, 3, 2),
    Call(Operation::Diff, 4, 2),
    Call(Operation::Intsec, 4, 1),
    Call(Operation::Subset1, 4, 2),
    Call(Operation::Subset0, 4, 2),
    Call(Operation::Change, 4, 1),
    Call(Operation::Change, 1, 3),
    Call(Operation::Change, 5, 1),
];

// The files that are loaded: those that Save wrote, one with a needless item, one of no parts, and no bytes.
const FILES: [&[u8]; 5] = [
    b"\x01\x01\x00\x00\x00\x00",
    b"\x01\x02\x00\x00\x00\x00\x06\x02\x00\x00\x00\x01\x00\x00\x00",
    b"\x01\x01\x00\x00\x00\x01\x01\x00",
    b"\x01\x00\x00\x00\x00",
    b"",
];

// Fresh, with its line.
fn fresh_line(rt: &impl Print, lent: &mut Lent) -> io::Result<()> {
    let answer = lent.fresh(512);
    print!(rt;
        "Fresh({} node words, {} lookup words)",
        lent.nodes.len(),
        lent.lookup.len()
    )?;
    match answer {
        Ok(()) => println!(rt;
            ": capacity {}, held {}",
            lent.store.capacity, lent.store.count
        ),
        Err(refusal) => refused(rt, refusal),
    }
}

// The start slot of the words 1, 0, 1, and what stands there.
fn slot_line(rt: &impl Print, lookup: &[u32]) -> io::Result<()> {
    let sum = start_slot(1, 0, 1, 4294967296);
    let slot = start_slot(1, 0, 1, 7);
    print!(rt; "Words 1, 0, 1: sum {sum}, slot {slot}")?;
    if let Some(handle) = lookup.get(slot) {
        print!(rt; ", which holds {handle}")?;
    }
    println!(rt; "")
}

// The combinations of the item 1 and of none, asked for in p.
fn has_lines(rt: &impl Print, lent: &Lent, p: u32) -> io::Result<()> {
    let none = Combination { words: [0; 16] };
    lent.has(rt, p, "{1}", none.including(1))?;
    lent.has(rt, p, "{}", none)
}

// The lines of the worked store.
pub fn lines(rt: &impl Print) -> io::Result<()> {
    let mut lent = Lent {
        store: Store::new(0, 0),
        nodes: &mut [0; 12],
        lookup: &mut [0; 7],
        cache: &mut [0; 64],
    };
    fresh_line(rt, &mut lent)?;
    lent.operations(rt, &CALLS[..1])?;
    slot_line(rt, lent.lookup)?;
    lent.operations(rt, &CALLS[1..])?;
    lent.save(rt, 2, &mut [0; 16])?;
    lent.save(rt, 4, &mut [0; 16])?;
    has_lines(rt, &lent, 4)?;
    for file in FILES {
        lent.load(rt, file)?;
    }
    Ok(())
}
