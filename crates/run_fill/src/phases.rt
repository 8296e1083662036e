// The phases: what is called in each, and the lines on what it left.
use crate::lent::Words;
use crate::making::{Kind, Progress};
use std::io;
use store_fresh::fresh;

// What a phase calls and how often, and whether an audit follows.
#[derive(Clone, Copy)]
struct Phase {
    what: &'static str,
    kind: Kind,
    calls: u32,
    audited: bool,
}

// The phases. The 13 unions need 1 to 13 nodes each; the last change finds its family held.
const PHASES: [Phase; 6] = [
    Phase {
        what: "100000 changes with 1 part not held each",
        kind: Kind::Changes,
        calls: 100000,
        audited: true,
    },
    Phase {
        what: "13 unions with 91 parts not held",
        kind: Kind::Unions,
        calls: 13,
        audited: false,
    },
    Phase {
        what: "a union with 14 parts not held",
        kind: Kind::Unions,
        calls: 1,
        audited: true,
    },
    Phase {
        what: "9 changes with 1 part not held each",
        kind: Kind::Changes,
        calls: 9,
        audited: false,
    },
    Phase {
        what: "a change with 1 part not held",
        kind: Kind::Changes,
        calls: 1,
        audited: true,
    },
    Phase {
        what: "a change with no part not held",
        kind: Kind::Again,
        calls: 1,
        audited: true,
    },
];

impl Progress {
    // Writes the answer last given, how many nodes the phase added, and the record.
    fn line(self, rt: &impl Print, what: &str) -> io::Result<()> {
        let Progress { store, added, .. } = self;
        print!(rt; "{what}: ")?;
        match self.answer {
            Ok(placement) => print!(rt; "{}", placement.handle)?,
            Err(refusal) => print!(rt; "refused {}", u32::from(refusal))?,
        }
        println!(rt;
            ", added {added}, held {} of {}",
            store.count, store.capacity
        )
    }
}

// Runs a phase, and writes its lines.
fn run(rt: &impl Print, phase: Phase, from: Progress, words: &mut Words) -> io::Result<Progress> {
    words.keep();
    let at = from.calls(phase.kind, phase.calls, words);
    at.line(rt, phase.what)?;
    words.compare(rt)?;
    if phase.audited {
        words.audit(rt, at.store)?;
    }
    Ok(at)
}

// All phases on a fresh store.
pub fn all(rt: &impl Print, words: &mut Words) -> io::Result<()> {
    let nodes = &mut *words.nodes;
    let lookup = &mut *words.lookup;
    let cache = &mut *words.cache;
    let store = fresh(nodes, lookup, cache, 512).store;
    println!(rt; "fresh: held {} of {}", store.count, store.capacity)?;
    let mut at = Progress::start(store);
    for phase in PHASES {
        at = run(rt, phase, at, words)?;
    }
    Ok(())
}
