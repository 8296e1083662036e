// Ways handed on from a part to its sides. Each function gives None where it could not: a number above 2^64 - 1, a table
// that is full, or words of no sound store end it.
ghost use Rattle.std.specs.Prelude.{◌≤◌, length, is_some};
ghost use Rattle.query_ways.specs.Inner.{HandAsks, Handed, HandedDown, BothAsks, HandedBoth};

use query_parts::entries::Parts;
use query_walk::sizes::size_of;
use query_walk::walk::reach;

// The ways to the handles from `low` on stand in a window, a word for each, of which the first `left` are still to be gone
// through; a side below the window is counted by the table of the parts there, and the total has its members, once for
// each way.
#[derive(Drop)]
pub struct Passage<'a> {
    pub window: &'a mut [u64],
    pub low: u32,
    pub left: u32,
    pub parts: Parts<'a>,
    pub total: u64,
}

// To a handle in the window, that of word `at`.
fn hand_down(window: &mut [u64], left: u32, at: u32, ways: u64) -> Option<()>
    requires { left ≤ length window.old }
    ensures { HandedDown left at ways window.old window.new (is_some result) }
{
    if left <= at {
        return None;
    }
    let before = window[at as usize];
    window[at as usize] = before.checked_add(ways)?;
    Some(())
}

impl<'a> Passage<'a> {
    // To a handle below the window.
    fn hand_below(&mut self, child: u32, ways: u64, nodes: &[u32], count: u32) -> Option<()>
        requires { HandAsks nodes.now count self.old }
        ensures { Handed child ways nodes.now count self.old self.new (is_some result) }
    {
        let number = reach(child, 513, nodes, count, &mut self.parts)?;
        let size = size_of(&self.parts, number)?;
        self.total = self.total.checked_add(ways.checked_mul(size)?)?;
        Some(())
    }

    // To a handle that is not {}.
    fn hand_on(&mut self, child: u32, ways: u64, nodes: &[u32], count: u32) -> Option<()>
        requires { HandAsks nodes.now count self.old }
        ensures { Handed child ways nodes.now count self.old self.new (is_some result) }
    {
        if self.low <= child {
            return hand_down(self.window, self.left, child - self.low, ways);
        }
        self.hand_below(child, ways, nodes, count)
    }

    // To both sides of a node.
    // Kept: the without-side has no call of `hand_on`, so that the compiler makes the loop of one piece. With `hand_on` as a
    // function by itself the call took 1.14 to 1.37 times as long.
    pub fn hand_both(&mut self, p: u32, ways: u64, nodes: &[u32], count: u32) -> Option<()>
        requires { BothAsks p nodes.now count self.old }
        ensures { HandedBoth p ways nodes.now count self.old self.new (is_some result) }
    {
        let base = 3 * (p - 2) as usize;
        let zero = nodes[base + 1];
        let one = nodes[base + 2];
        if zero == 0 {
            return self.hand_on(one, ways, nodes, count);
        }
        if self.low <= zero {
            hand_down(self.window, self.left, zero - self.low, ways)?;
            return self.hand_on(one, ways, nodes, count);
        }
        self.hand_below(zero, ways, nodes, count)?;
        self.hand_on(one, ways, nodes, count)
    }
}
