// Prints the report on each file that its arguments name, read seven bytes at a time.
#![tactic(auto)]

use std::fs::File;
use std::rt::Files;
use std::{env, io};

// Prints the report on a file; whether it could be opened and the report was written.
fn report_opened(rt: &(impl Files + Print), path: &str) -> bool {
    let Ok(mut file) = File::open(rt, path) else {
        return false;
    };
    report_run::report_on(rt, &mut file, 7).is_ok()
}

// Prints the name of a file and the report on it; says on standard error where none could be made.
fn report_file(rt: &(impl Files + Print + Eprint), path: &str) -> io::Result<()> {
    println!(rt; "{path}:")?;
    if !report_opened(rt, path) {
        eprintln!(rt; "{path}: no report could be made")?;
    }
    Ok(())
}

fn main(rt: HostRuntime) -> io::Result<()> {
    for path in env::args(&rt)?.skip(1) {
        report_file(&rt, path.as_str())?;
    }
    Ok(())
}
