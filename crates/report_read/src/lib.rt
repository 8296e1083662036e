// A log read from a reader in pieces. What decides is `take_read`, on the reader's answer and the bytes it left.
#![tactic(auto)]

ghost use Rattle.std.specs.Prelude.{◌≡◌, length};
ghost use Rattle.report_read.specs.Answers.{Moved, behind};
ghost use Rattle.report_read.specs.Promise.{ReadCall, ReadAllCall};
ghost use Rattle.report_read.specs.Inner.{got_of, OneRead};

use report_log::take_piece;
use report_tally::{Ending, Tally};
use std::io;
use std::io::Read;

// How the input stands: there may be more, no more is needed, or a read failed.
// Kept: three ways to stand, with a tally in each, so neither Option nor Result is plainer.
#[derive(Clone, Copy)]
pub enum Input {
    More,
    Done,
    Failed,
}

// What is kept of a log, and how its input stands.
#[derive(Clone, Copy)]
pub struct Fed {
    pub tally: Tally,
    pub input: Input,
}

// A log that ended needs no more bytes.
fn input_behind(ending: Ending) -> Input
    ensures { result ≡ behind ending }
{
    match ending {
        Ending::Going => Input::More,
        Ending::Refused | Ending::Full => Input::Done,
    }
}

// Takes what a read brought: none where it failed; 0 at the end of the input, else so many bytes stand in the buffer.
pub fn take_read(
    t: Tally,
    nodes: &mut [u32],
    lookup: &mut [u32],
    cache: &mut [u32],
    got: Option<usize>,
    buffer: &[u8],
) -> Fed
    ensures { ReadCall t nodes.old lookup.old cache.old buffer.now got result nodes.new lookup.new cache.new }
{
    match got {
        None => Fed {
            tally: t,
            input: Input::Failed,
        },
        Some(0) => Fed {
            tally: t,
            input: Input::Done,
        },
        Some(n) => {
            let piece = &buffer[..n.min(buffer.len())];
            let tally = take_piece(t, nodes, lookup, cache, piece);
            let input = input_behind(tally.ending);
            Fed { tally, input }
        }
    }
}

// What a read answered: how many bytes it brought, or none where it failed.
fn got_of(read: io::Result<usize>) -> Option<usize>
    ensures { result ≡ got_of read }
{
    read.ok()
}

// One read of at most so many bytes to the front of a buffer.
fn read_front<R: Read>(reader: &mut R, most: usize, buffer: &mut [u8]) -> Option<usize>
    ensures { Moved (length buffer.old) result }
{
    let most = most.min(buffer.len());
    got_of(reader.read(&mut buffer[..most]))
}

// Reads one piece of at most so many bytes, and takes it.
fn read_piece<R: Read>(
    reader: &mut R,
    most: usize,
    t: Tally,
    nodes: &mut [u32],
    lookup: &mut [u32],
    cache: &mut [u32],
) -> Fed
    ensures { OneRead t nodes.old lookup.old cache.old result nodes.new lookup.new cache.new }
{
    let mut buffer = [0u8; 65536];
    let got = read_front(reader, most, &mut buffer);
    take_read(t, nodes, lookup, cache, got, &buffer)
}

// Reads until the input or the log ends.
pub fn read_all<R: Read>(
    reader: &mut R,
    most: usize,
    t: Tally,
    nodes: &mut [u32],
    lookup: &mut [u32],
    cache: &mut [u32],
) -> Fed
    ensures { ReadAllCall t nodes.old lookup.old cache.old result nodes.new lookup.new cache.new }
{
    let mut fed = Fed {
        tally: t,
        input: Input::More,
    };
    for _ in 0..u64::MAX {
        fed = read_piece(reader, most, fed.tally, nodes, lookup, cache);
        let Input::More = fed.input else {
            return fed;
        };
    }
    fed
}
