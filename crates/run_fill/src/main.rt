// Makes 100,000 nodes, audits, fills the store to a refusal with 5, and tests that all is as before; writes a line
// for each.
#![tactic(auto)]

mod lent;
mod making;
mod phases;

use lent::Words;
use std::io;

// The words are made here, once, and lent.
fn main(rt: HostRuntime) -> io::Result<()> {
    let mut words = Words {
        nodes: &mut [7; 300302],
        lookup: &mut [7; 150001],
        cache: &mut [7; 4099],
        node_copy: &mut [0; 300302],
        lookup_copy: &mut [0; 150001],
    };
    phases::all(&rt, &mut words)
}
