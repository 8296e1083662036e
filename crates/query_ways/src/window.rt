// The window: a quarter of the words, for the asked handle and those before it. The table has the rest.
ghost use Rattle.std.specs.Prelude.{◌≡◌, ◌/◌, ◌<◌, ◌≤◌, length};
ghost use Rattle.query_ways.specs.Inner.{DenseAsks, Opened, GoAsks, Gone, WaysAsks};

use crate::hand::Passage;
use query_parts::entries::{Parts, places_in};

// One way to the last handle, and none to the others.
fn open(words: &mut [u64])
    requires { 0 < length words.old }
    ensures { Opened words.new }
{
    words.fill(0);
    words[words.len() - 1] = 1;
}

// Marks a handle, where its word is one of the first ones.
fn mark(marks: &mut [u64], left: u32, low: u32, child: u32)
    requires { left ≤ length marks.old }
    ensures { length marks.new ≡ length marks.old }
{
    if low <= child && child - low < left {
        marks[(child - low) as usize] = 1;
    }
}

// Whether at least half of the handles from p down that have a word are parts of p: a guess at how its parts stand, which
// no answer goes by.
fn is_dense(p: u32, nodes: &[u32], count: u32, marks: &mut [u64]) -> bool
    requires { DenseAsks p nodes.now count marks.old }
    ensures { length marks.new ≡ length marks.old }
{
    open(marks);
    let some = marks.len() as u32;
    let low = p - some + 1;
    for left in (0..some).rev() {
        if marks[left as usize] == 0 {
            continue;
        }
        let base = 3 * (low + left - 2) as usize;
        mark(marks, left, low, nodes[base + 1]);
        mark(marks, left, low, nodes[base + 2]);
    }
    some as usize / 2 <= marks.iter().filter(|mark| **mark != 0).count()
}

// Goes through the window. The size of p, where it was found so and there are at most so many parts.
fn go_down(p: u32, nodes: &[u32], count: u32, passage: &mut Passage<'_>, most: usize) -> Option<u64>
    requires { GoAsks p nodes.now count passage.old }
    ensures { Gone p nodes.now count most result }
{
    let width = passage.window.len() as u32;
    let mut passed: u32 = 0;
    for left in (0..width).rev() {
        passage.left = left;
        let ways = passage.window[left as usize];
        if ways == 0 {
            continue;
        }
        passed += 1;
        passage.hand_both(passage.low + left, ways, nodes, count)?;
    }
    if most < (passed + passage.parts.entered) as usize {
        return None;
    }
    Some(passage.total)
}

// The size of p by ways, where its parts stand side by side and two words for each are there.
pub fn size_by_ways(p: u32, nodes: &[u32], count: u32, words: &mut [u64]) -> Option<u64>
    requires { WaysAsks p nodes.now count }
    ensures gone { Gone p nodes.now count (length words.old / 2) result }
    ensures long { length words.new ≡ length words.old }
{
    let length = words.len();
    let width = (length / 4).min((p - 1) as usize);
    let some = width / 16;
    if some == 0 || !is_dense(p, nodes, count, &mut words[..some]) {
        return None;
    }
    let (window, rest) = words.split_at_mut(width);
    open(window);
    let places = places_in(rest.len(), count);
    let mut passage = Passage {
        window,
        low: p - width as u32 + 1,
        left: width as u32,
        parts: Parts::new(rest, places),
        total: 0,
    };
    go_down(p, nodes, count, &mut passage, length / 2)
}
