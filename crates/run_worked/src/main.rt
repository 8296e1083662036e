// Runs the worked store of document 01 and stores of two limits on the real calls, and writes one line for each.
#![tactic(auto)]

mod call;
mod large;
mod lent;
mod limits;
mod small;

use std::io;

fn main(rt: HostRuntime) -> io::Result<()> {
    small::lines(&rt)?;
    large::lines(&rt)?;
    limits::lines(&rt)
}
