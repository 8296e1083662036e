// A log, taken in pieces of any size: its lines are counted, and each is added to its family.
#![tactic(auto)]

ghost use Rattle.std.specs.Prelude.{◌≡◌, [], ◌∷◌};
ghost use Rattle.report_log.specs.Promise.{TakeCall};
ghost use Rattle.report_log.specs.Inner.{side_handle, LineEnd};

use report_add::add;
use report_line::{Reading, Side, Stage};
use report_tally::{Ending, Tally};
use store::record::{Answered, Placement};

// The handle of the family that a line of this side goes to.
fn side_handle(t: Tally, side: Side) -> u32
    ensures { result ≡ side_handle side t }
{
    match side {
        Side::Passed => t.passed,
        Side::Returned => t.returned,
    }
}

// The tally behind a line of this side, by what adding it gave.
fn line_end(t: Tally, side: Side, placed: Answered<Placement>) -> Tally
    ensures { LineEnd t side placed result }
{
    let behind = Tally {
        store: placed.store,
        reading: Reading::new(),
        ending: Ending::Going,
        ..t
    };
    let Ok(placement) = placed.answer else {
        return Tally {
            ending: Ending::Full,
            ..behind
        };
    };
    let lines = t.line_number();
    match side {
        Side::Passed => Tally {
            passed: placement.handle,
            lines,
            ..behind
        },
        Side::Returned => Tally {
            returned: placement.handle,
            lines,
            ..behind
        },
    }
}

// Takes one byte; a log that ended takes no more.
fn take_byte(t: Tally, nodes: &mut [u32], lookup: &mut [u32], cache: &mut [u32], b: u8) -> Tally
    ensures { TakeCall t nodes.old lookup.old cache.old (b ∷ []) result nodes.new lookup.new cache.new }
{
    let Ending::Going = t.ending else {
        return t;
    };
    let reading = t.reading.take(b);
    match reading.stage {
        Stage::Whole => {
            let panel = reading.panel;
            let family = side_handle(t, panel.side);
            let placed = add(t.store, nodes, lookup, cache, family, panel.items);
            line_end(t, panel.side, placed)
        }
        Stage::Malformed => Tally {
            reading,
            ending: Ending::Refused,
            ..t
        },
        _ => Tally { reading, ..t },
    }
}

// Takes a piece of a log.
pub fn take_piece(
    mut t: Tally,
    nodes: &mut [u32],
    lookup: &mut [u32],
    cache: &mut [u32],
    piece: &[u8],
) -> Tally
    ensures { TakeCall t nodes.old lookup.old cache.old piece.now result nodes.new lookup.new cache.new }
{
    for &b in piece {
        t = take_byte(t, nodes, lookup, cache, b);
    }
    t
}
