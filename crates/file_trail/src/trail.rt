// The parts met so far, in placing order. The link of a part is the handle of the part after it, its own for the
// last; 0 is no link.
// Kept: a link is one of the lent words, which are zeroed before, so 0 says that a part was not met yet.
ghost use Rattle.std.specs.Prelude.{◌≡◌, ◌+◌, ◌≤◌, length};
ghost use Rattle.file_trail.specs.Inner.{met_in, linked, first_of, VisitAsks, Visited};

use file_record::field::{Last, Part};

// The first part and the last one by their handles, the item of the last, how many there are, and the length of the
// file so far. While there are none the first is 0, which nothing reads.
#[derive(Clone, Copy)]
pub struct Trail {
    pub first: u32,
    pub last: u32,
    pub item: u32,
    pub parts: u32,
    pub bytes: usize,
}

// Whether a part was met; {} and {{}} are no parts.
pub fn is_met(links: &[u32], p: u32) -> bool
    requires { p ≤ length links.now + 1 }
    ensures { result ≡ met_in links.now p }
{
    if p < 2 {
        return true;
    }
    links[(p - 2) as usize] != 0
}

// Sets the link of a handle; {} and {{}} have none.
fn put_link(links: &mut [u32], p: u32, next: u32)
    requires { p ≤ length links.old + 1 }
    ensures { links.new ≡ linked links.old p next }
{
    if p < 2 {
        return;
    }
    links[(p - 2) as usize] = next;
}

impl Trail {
    // The first part once p is met.
    fn first_of(&self, p: u32) -> u32
        ensures { result ≡ first_of self.now p }
    {
        if self.parts == 0 { p } else { self.first }
    }

    // Puts the part p behind the last one; its children are given by their handles.
    pub fn visit(&mut self, links: &mut [u32], p: u32, part: Part)
        requires { VisitAsks self.old links.old p }
        ensures { Visited self.old links.old p part self.new links.new }
    {
        let last = Last {
            item: self.item,
            number: self.last,
        };
        put_link(links, self.last, p);
        put_link(links, p, p);
        *self = Trail {
            first: self.first_of(p),
            last: p,
            item: part.item,
            parts: self.parts + 1,
            bytes: self.bytes + part.standing(last).length(),
        };
    }
}
