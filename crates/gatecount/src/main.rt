// Reads a log of passed and returned panels from standard input, and prints the sizes of what passed, what came back,
// both and only the latter.
#![tactic(auto)]

use std::io;

fn main(rt: HostRuntime) -> io::Result<()> {
    let mut input = rt.stdin();
    if report_run::report_on(&rt, &mut input, 65536).is_err() {
        eprintln!(rt; "gatecount: no report could be made")?;
    }
    Ok(())
}
