// What a record says, what it goes by, and which of its fields stand.
ghost use Rattle.std.specs.Prelude.{◌≡◌, ◌≤◌, ◌<◌};
ghost use Rattle.family.specs.Record.{map_of};
ghost use Rattle.file_record.specs.Widths.{standing_of, widths};

// A part: its item, and its children by local numbers.
#[derive(Clone, Copy)]
pub struct Part {
    pub item: u32,
    pub zero: u32,
    pub one: u32,
}

// The record before: its item and its local number; 0 and 1 before the first.
#[derive(Clone, Copy)]
pub struct Last {
    pub item: u32,
    pub number: u32,
}

// Which fields of a record stand.
#[derive(Clone, Copy)]
pub struct Standing {
    pub item: bool,
    pub zero: bool,
    pub one: bool,
}

impl Part {
    // The fields that stand in the part's record: those that differ from what an absent field says.
    pub fn standing(self, last: Last) -> Standing
        requires { last.item < 4294967295 }
        ensures { result ≡ standing_of self last }
    {
        Standing {
            item: self.item != last.item + 1,
            zero: self.zero != 0,
            one: self.one != last.number,
        }
    }
}

impl Standing {
    // The bit map byte.
    pub fn map(self) -> u8
        ensures { result ≡ map_of self.item self.zero self.one }
    {
        u8::from(self.item) + 2 * u8::from(self.zero) + 4 * u8::from(self.one)
    }

    // The length of the record.
    pub fn length(self) -> usize
        ensures value { result ≡ widths self.item self.zero self.one }
        ensures short { result ≤ 11 }
    {
        1 + 2 * usize::from(self.item) + 4 * usize::from(self.zero) + 4 * usize::from(self.one)
    }
}
