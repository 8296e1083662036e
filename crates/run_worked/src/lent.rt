// A store on lent words: the calls on it, each with its line.
use crate::call::Call;
use combination::Combination;
use file_load::load;
use file_save::save;
use op_calls::operate;
use query_has::has;
use query_size::size;
use std::io;
use store::record::{Placement, Refusal, Store};
use store_fresh::fresh;

// The record and the words of a store.
#[derive(Drop)]
pub struct Lent<'a> {
    pub store: Store,
    pub nodes: &'a mut [u32],
    pub lookup: &'a mut [u32],
    pub cache: &'a mut [u32],
}

// Ends a line with a refusal.
pub fn refused(rt: &impl Print, refusal: Refusal) -> io::Result<()> {
    println!(rt; " refused with {}", u32::from(refusal))
}

// Writes bytes in hexadecimal.
fn hexadecimal(rt: &impl Print, bytes: &[u8]) -> io::Result<()> {
    for byte in bytes {
        print!(rt; " {byte:02x}")?;
    }
    Ok(())
}

impl Lent<'_> {
    // Fresh with a limit.
    pub fn fresh(&mut self, limit: u32) -> Result<(), Refusal> {
        let freshened = fresh(self.nodes, self.lookup, self.cache, limit);
        self.store = freshened.store;
        freshened.answer
    }

    // Runs an operation.
    pub fn operate(&mut self, call: Call) -> Result<Placement, Refusal> {
        let Call(op, p, q) = call;
        let placed = operate(op, self.store, self.nodes, self.lookup, self.cache, p, q);
        self.store = placed.store;
        placed.answer
    }

    // Writes the three words of a node; nothing for a handle that no node has.
    fn node_words(&self, rt: &impl Print, handle: u32) -> io::Result<()> {
        let Some(k) = handle.checked_sub(2) else {
            return Ok(());
        };
        if let Some([item, zero, one]) = self.nodes.chunks_exact(3).nth(k as usize) {
            print!(rt; ", words {item}, {zero}, {one}")?;
        }
        Ok(())
    }

    // Ends a line with what a call that places gave: the handle, its node's words, and how many nodes were added and are
    // held.
    fn placed(&self, rt: &impl Print, answer: Result<Placement, Refusal>) -> io::Result<()> {
        match answer {
            Ok(Placement { handle, added }) => {
                print!(rt; " = {handle}")?;
                self.node_words(rt, handle)?;
                println!(rt; ", added {added}, held {}", self.store.count)
            }
            Err(refusal) => refused(rt, refusal),
        }
    }

    // Runs operations, each with its line.
    pub fn operations(&mut self, rt: &impl Print, calls: &[Call]) -> io::Result<()> {
        for call in calls {
            let answer = self.operate(*call);
            print!(rt; "{call}")?;
            self.placed(rt, answer)?;
        }
        Ok(())
    }

    // Saves p into lent bytes, with the line.
    pub fn save(&self, rt: &impl Print, p: u32, out: &mut [u8]) -> io::Result<()> {
        let mut links = [0u32; 4];
        let saved = save(self.store, self.nodes, self.lookup, p, &mut links, out);
        print!(rt; "Save({p})")?;
        match saved.answer {
            Ok(length) => {
                print!(rt; " = {length} bytes:")?;
                hexadecimal(rt, &out[..length.min(out.len())])?;
                println!(rt; "")
            }
            Err(refusal) => refused(rt, refusal),
        }
    }

    // Loads a file, with the line.
    pub fn load(&mut self, rt: &impl Print, file: &[u8]) -> io::Result<()> {
        let mut scratch = [0u32; 96];
        let placed = load(
            self.store,
            self.nodes,
            self.lookup,
            self.cache,
            file,
            &mut scratch,
        );
        self.store = placed.store;
        print!(rt; "Load of")?;
        if file.is_empty() {
            print!(rt; " no bytes")?;
        }
        hexadecimal(rt, file)?;
        self.placed(rt, placed.answer)
    }

    // Asks whether a combination is in p, with the line.
    pub fn has(
        &self,
        rt: &impl Print,
        p: u32,
        shown: &str,
        combination: Combination,
    ) -> io::Result<()> {
        let asked = has(self.store, self.nodes, self.lookup, p, combination);
        print!(rt; "Has({p}, {shown})")?;
        match asked.answer {
            Ok(true) => println!(rt; " = yes"),
            Ok(false) => println!(rt; " = no"),
            Err(refusal) => refused(rt, refusal),
        }
    }

    // Measures p, with the line.
    pub fn size(&self, rt: &impl Print, p: u32) -> io::Result<()> {
        let mut sizes = [0u64; 200];
        let measured = size(self.store, self.nodes, self.lookup, p, &mut sizes);
        print!(rt; "Size({p})")?;
        match measured.answer {
            Ok(members) => println!(rt; " = {members}"),
            Err(refusal) => refused(rt, refusal),
        }
    }
}
