// The report on a log that is read from a reader, made and handed to the system for standard output.
#![tactic(auto)]

ghost use Rattle.report_run.specs.Promise.{ReportCall};
ghost use Rattle.report_run.specs.Inner.{Reported, IsReport};

use report_close::close;
use report_read::{Input, read_all};
use report_tally::open_log;
use report_text::Text;
use std::io;
use std::io::Read;

// Three words for each of 500 nodes.
const NODE_WORDS: usize = 1500;

// The words of the lookup.
const LOOKUP_WORDS: usize = 1001;

// The words of the cache.
const CACHE_WORDS: usize = 1024;

// Why no report was written: a read failed, there was more to read behind all the reads that are made, or the system
// did not take all of the report.
#[derive(Clone, Copy)]
pub enum NoReport {
    Unread,
    Unended,
    Unwritten(Text),
}

// Reads a log, at most so many bytes at a time, and makes the report on it.
fn make_report<R: Read>(
    reader: &mut R,
    most: usize,
    nodes: &mut [u32; NODE_WORDS],
    lookup: &mut [u32; LOOKUP_WORDS],
    cache: &mut [u32; CACHE_WORDS],
) -> Result<Text, NoReport>
    ensures { Reported lookup.old cache.old result }
{
    let t = open_log(nodes, lookup, cache);
    let fed = read_all(reader, most, t, nodes, lookup, cache);
    match fed.input {
        Input::Failed => Err(NoReport::Unread),
        Input::More => Err(NoReport::Unended),
        Input::Done => {
            let mut sizes = [0u64; 500];
            Ok(close(fed.tally, nodes, lookup, cache, &mut sizes))
        }
    }
}

// Hands a report to the system for standard output.
fn hand_over(rt: &impl Print, text: &Text) -> io::Result<()>
    requires { IsReport text.now.bytes }
{
    print!(rt; "{text}")
}

// Reads a log of passed and returned panels from a reader, at most so many bytes at a time, and writes the report to
// standard output. Where a read failed nothing is written.
pub fn report_on<R: Read>(rt: &impl Print, reader: &mut R, most: usize) -> Result<Text, NoReport>
    ensures { ReportCall result }
{
    let mut nodes = [0u32; NODE_WORDS];
    let mut lookup = [0u32; LOOKUP_WORDS];
    let mut cache = [0u32; CACHE_WORDS];
    let text = make_report(reader, most, &mut nodes, &mut lookup, &mut cache)?;
    match hand_over(rt, &text) {
        Ok(()) => Ok(text),
        Err(_) => Err(NoReport::Unwritten(text)),
    }
}
