// A log so far: what is kept of it, and opening one.
#![tactic(auto)]

ghost use Rattle.std.specs.Prelude.{◌≡◌, suc};
ghost use Rattle.report_tally.specs.Log.{capped};
ghost use Rattle.report_tally.specs.Promise.{OpenCall};

use report_line::Reading;
use store::record::Store;
use store_fresh::{empty, fresh};

// Kept: an ending is no error of a tally, which stays whole beside it and is printed by it, so this is no Result.
// Whether a log goes on, or ended with a line that was refused or found the store full.
#[derive(Clone, Copy)]
pub enum Ending {
    Going,
    Refused,
    Full,
}

// The store's record, the handles of the two families, the number of lines taken, and the line begun.
// Kept: the lent words stand beside a tally as three slices, since every call of the store takes them so for C.
#[derive(Clone, Copy)]
pub struct Tally {
    pub store: Store,
    pub passed: u32,
    pub returned: u32,
    pub lines: u64,
    pub reading: Reading,
    pub ending: Ending,
}

impl Tally {
    // The number of the line begun: one more than the lines taken, at most 2^64 - 1.
    pub fn line_number(self) -> u64
        ensures { result ≡ capped (suc self.lines) }
    {
        self.lines.saturating_add(1)
    }
}

// Opens a log on fresh words, for all items.
pub fn open_log(nodes: &mut [u32], lookup: &mut [u32], cache: &mut [u32]) -> Tally
    ensures { OpenCall nodes.old lookup.old result nodes.new lookup.new cache.new }
{
    let freshened = fresh(nodes, lookup, cache, 512);
    Tally {
        store: freshened.store,
        passed: empty(),
        returned: empty(),
        lines: 0,
        reading: Reading::new(),
        ending: Ending::Going,
    }
}
