// Replays lists of calls that a fixed 32-bit xorshift draws, and writes one line for each call with its answer.
#![tactic(auto)]

mod audits;
mod carried;
mod craft;
mod draw;
mod lend;
mod lists;
mod loads;
mod members;
mod output;
mod parity;
mod parts;
mod path;
mod placing;
mod replay;
mod saves;
mod settings;
mod shapes;
mod sizes;
mod subsets;
mod sums;
mod tall;
mod turn;
mod weighing;
mod weights;

use std::io;

fn main(rt: HostRuntime) -> io::Result<()> {
    lists::all(&rt)
}
