// Pieces of a line on standard output.
use std::{fmt, io};
use store::record::{Refusal, Store};

// Yes or no.
pub fn told(yes: bool) -> &'static str {
    if yes { "yes" } else { "no" }
}

// Writes a record that was given back.
pub fn record(rt: &impl Print, store: Store) -> io::Result<()> {
    let Store {
        capacity,
        count,
        limit,
    } = store;
    print!(rt; " held {count} of {capacity} limit {limit}")
}

// Writes a refusal.
pub fn refused(rt: &impl Print, refusal: Refusal) -> io::Result<()> {
    print!(rt; " refused {}", u32::from(refusal))
}

// Writes an answer, or the refusal.
pub fn answer<T: fmt::Display + Drop>(
    rt: &impl Print,
    given: Result<T, Refusal>,
) -> io::Result<()> {
    match given {
        Ok(value) => print!(rt; " {value}"),
        Err(refusal) => refused(rt, refusal),
    }
}
