// The table: as many places as there are tags, and as many sizes behind them. A chain starts at the handle modulo the
// places: handles of one family mostly stand side by side.
ghost use Rattle.std.specs.Prelude.{◌≡◌, ◌/◌, min};
ghost use Rattle.query_parts.specs.Inner.{OpenAsks, Opened, FindAsks, Found, EnterAsks, Entered};

use crate::tag::{handle_of, head_of, headed, linked, next_of};

// How many places the table has in so many words. No family has more parts than there are nodes.
pub fn places_in(words: usize, count: u32) -> u32
    ensures { result ≡ min (words / 2) count }
{
    (words / 2).min(count as usize) as u32
}

// A table in lent words: how many places it has, and how many parts were entered.
// Kept: that the words are such a table stands in the contracts and in no ghost field. It would be no plainer: `enter`
// writes three words behind the reference, and only after the last are they a table again, so it would write a copy.
#[derive(Drop)]
pub struct Parts<'a> {
    pub words: &'a mut [u64],
    pub places: u32,
    pub entered: u32,
}

impl<'a> Parts<'a> {
    // An empty table of so many places.
    pub fn new(words: &'a mut [u64], places: u32) -> Parts<'a>
        requires { OpenAsks words.old places }
        ensures { Opened places words.old result }
    {
        words[..places as usize].fill(0);
        Parts {
            words,
            places,
            entered: 0,
        }
    }

    // The place of a handle, where it was entered.
    pub fn find(&self, handle: u32) -> Option<u32>
        requires { FindAsks self.now }
        ensures { Found self.now handle result }
    {
        let mut chain = head_of(self.words[(handle % self.places) as usize]);
        while let Some(place) = chain {
            let tag = self.words[place as usize];
            if handle_of(tag) == handle {
                return Some(place);
            }
            chain = next_of(tag);
        }
        None
    }

    // Enters a handle with its size behind the others, as the head of its chain.
    pub fn enter(&mut self, handle: u32, size: u64)
        requires { EnterAsks self.old handle }
        ensures { Entered handle size self.old self.new }
    {
        let place = self.entered as usize;
        let start = (handle % self.places) as usize;
        self.words[place] = linked(self.words[place], handle, head_of(self.words[start]));
        self.words[start] = headed(self.words[start], Some(self.entered));
        self.words[self.places as usize + place] = size;
        self.entered += 1;
    }
}
