// The end of a report: the closing sums, or the line that ended the log.
#![tactic(auto)]

ghost use Rattle.std.specs.Prelude.{length};
ghost use Rattle.report_close.specs.Promise.{CloseCall};
ghost use Rattle.report_close.specs.Inner.{SizeIt, SizesIt, SumsIt, EndIs};

use op_families::calls::{diff, intsec};
use query_size::size;
use report_line::Stage;
use report_tally::{Ending, Tally};
use report_text::{Text, full, line, sums};
use store::record::{Refusal, Store};

// The families of which the sizes are printed.
#[derive(Clone, Copy)]
pub struct FourHandles {
    pub passed: u32,
    pub returned: u32,
    pub both: u32,
    pub only: u32,
}

// The size of a family, at most 2^64 - 1.
fn size_of(store: Store, nodes: &[u32], lookup: &[u32], p: u32, sizes: &mut [u64]) -> u64
    ensures { SizeIt store nodes.now lookup.now p (length sizes.old) result }
{
    size(store, nodes, lookup, p, sizes)
        .answer
        .unwrap_or(u64::MAX)
}

// The text of the four sizes.
fn sizes_text(
    store: Store,
    nodes: &[u32],
    lookup: &[u32],
    handles: FourHandles,
    sizes: &mut [u64],
) -> Text
    ensures { SizesIt store nodes.now lookup.now handles (length sizes.old) result.bytes }
{
    let passed = size_of(store, nodes, lookup, handles.passed, sizes);
    let returned = size_of(store, nodes, lookup, handles.returned, sizes);
    let both = size_of(store, nodes, lookup, handles.both, sizes);
    let only = size_of(store, nodes, lookup, handles.only, sizes);
    sums(passed, returned, both, only)
}

// Places what is in both families and what is only in the returned one, and gives the text of the sizes; a refusal
// where the store was full.
fn close_sums(
    store: Store,
    nodes: &mut [u32],
    lookup: &mut [u32],
    cache: &mut [u32],
    passed: u32,
    returned: u32,
    sizes: &mut [u64],
) -> Result<Text, Refusal>
    ensures { SumsIt store nodes.old lookup.old cache.old passed returned (length sizes.old) result }
{
    let first = intsec(store, nodes, lookup, cache, passed, returned);
    let both = first.answer?.handle;
    let second = diff(first.store, nodes, lookup, cache, returned, passed);
    let only = second.answer?.handle;
    let handles = FourHandles {
        passed,
        returned,
        both,
        only,
    };
    Ok(sizes_text(second.store, nodes, lookup, handles, sizes))
}

// How a log ends with its last byte: a line that was begun is malformed.
fn ending_of(t: Tally) -> Ending
    ensures { EndIs t result }
{
    let Ending::Going = t.ending else {
        return t.ending;
    };
    match t.reading.stage {
        Stage::Blank => Ending::Going,
        _ => Ending::Refused,
    }
}

// What a log comes to; the scratch has a word for each node of the capacity.
pub fn close(
    t: Tally,
    nodes: &mut [u32],
    lookup: &mut [u32],
    cache: &mut [u32],
    sizes: &mut [u64],
) -> Text
    ensures { CloseCall t nodes.old lookup.old cache.old sizes.old result.bytes }
{
    match ending_of(t) {
        Ending::Going => close_sums(
            t.store, nodes, lookup, cache, t.passed, t.returned, sizes,
        ).unwrap_or_else(|_| full()),
        Ending::Refused => line(t.line_number(), " refused\n"),
        Ending::Full => line(t.line_number(), " full\n"),
    }
}
