// Reading one line of a log, byte by byte.
#![tactic(auto)]

ghost use Rattle.std.specs.Prelude.{◌≡◌, ◌+◌, ◌*◌, ◌≤◌};
ghost use Rattle.family.specs.Combination.{items_of};
ghost use Rattle.report_line.specs.Line.{numeral, first_byte, gap, opened, grown, closed, advance, progress_of};
ghost use Rattle.report_line.specs.Promise.{NewLine, ByteTaken};

use combination::Combination;

// Which family a line is for.
#[derive(Clone, Copy)]
pub enum Side {
    Passed,
    Returned,
}

// What a line says of a panel, so far: the items taken, and its side.
#[derive(Clone, Copy)]
pub struct Panel {
    pub items: Combination,
    pub side: Side,
}

// How far a line is read: before its letter, behind its letter or an item taken, behind a space, within an item with
// its number so far, behind its newline.
#[derive(Clone, Copy)]
pub enum Stage {
    Blank,
    Letter,
    Space,
    Number(u32),
    Whole,
    Malformed,
}

// A line that is being read: what it says so far, and how many bytes it may still have. The panel stands beside the
// stage, since a stage that carried it would be copied with it several times for each byte.
#[derive(Clone, Copy)]
pub struct Reading {
    pub stage: Stage,
    pub panel: Panel,
    pub left: u32,
}

impl Reading {
    // A line of which nothing is read yet.
    pub fn new() -> Reading
        ensures { NewLine result }
    {
        let items = Combination { words: [0; 16] };
        let side = Side::Passed;
        Reading {
            stage: Stage::Blank,
            panel: Panel { items, side },
            left: 2048,
        }
    }

    // The line with one byte more.
    pub fn take(self, b: u8) -> Reading
        ensures { ByteTaken self b result }
    {
        let mut next = self;
        match self.left.checked_sub(1) {
            Some(left) => {
                next.stage = self.stage.take(&mut next.panel, b);
                next.left = left;
            }
            None => next.stage = Stage::Malformed,
        }
        next
    }
}

impl Stage {
    // The stage behind one byte more; the panel takes what the byte says.
    fn take(self, panel: &mut Panel, b: u8) -> Stage
        ensures { progress_of result panel.new ≡ advance (progress_of self panel.old) b }
    {
        match self {
            Stage::Blank => panel.take_letter(b),
            Stage::Letter => panel.take_gap(b),
            Stage::Space => panel.open_item(b),
            Stage::Number(item) => panel.take_digit(item, b),
            Stage::Whole | Stage::Malformed => Stage::Malformed,
        }
    }
}

impl Panel {
    // The first byte of a line.
    #[tactic(auto, using(crate::proofs::States::no_items))]
    fn take_letter(&mut self, b: u8) -> Stage
        ensures { progress_of result self.new ≡ first_byte b }
    {
        let side = match b {
            b'P' => Side::Passed,
            b'R' => Side::Returned,
            _ => return Stage::Malformed,
        };
        let items = Combination { words: [0; 16] };
        *self = Panel { items, side };
        Stage::Letter
    }

    // The byte behind the letter or an item.
    fn take_gap(&self, b: u8) -> Stage
        ensures { progress_of result self.now ≡ gap self.now.side (items_of self.now.items.words) b }
    {
        match b {
            b' ' => Stage::Space,
            b'\n' => Stage::Whole,
            _ => Stage::Malformed,
        }
    }

    // The first digit of an item.
    fn open_item(&self, b: u8) -> Stage
        ensures { progress_of result self.now ≡ opened self.now.side (items_of self.now.items.words) b }
    {
        match b {
            b'1'..=b'9' => Stage::Number(u32::from(b - b'0')),
            _ => Stage::Malformed,
        }
    }

    // A byte within an item: one more digit, or what follows the item.
    fn take_digit(&mut self, item: u32, b: u8) -> Stage
        ensures { progress_of result self.new ≡ advance (numeral self.old.side (items_of self.old.items.words) item) b }
    {
        if b.is_ascii_digit() {
            self.grow_item(item, u32::from(b - b'0'))
        } else {
            self.close_item(item, b)
        }
    }

    // One digit more of an item.
    fn grow_item(&self, item: u32, digit: u32) -> Stage
        ensures { progress_of result self.now ≡ grown self.now.side (items_of self.now.items.words) (10 * item + digit) }
    {
        let longer = item.saturating_mul(10).saturating_add(digit);
        if longer <= 512 {
            Stage::Number(longer)
        } else {
            Stage::Malformed
        }
    }

    // The byte behind the last digit of an item.
    #[tactic(auto, using(crate::proofs::States::closed_low, crate::proofs::States::closed_high, crate::proofs::States::closed_held, crate::proofs::States::closed_free))]
    fn close_item(&mut self, item: u32, b: u8) -> Stage
        ensures { progress_of result self.new ≡ closed self.old.side (items_of self.old.items.words) item b }
    {
        match item {
            1..=512 if !self.items.contains(item) => {
                self.items = self.items.including(item);
                self.take_gap(b)
            }
            _ => Stage::Malformed,
        }
    }
}
