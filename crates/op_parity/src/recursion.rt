// Even and Odd: the recursion on the two sides. The part of one parity goes on with itself on the without-side and with
// the other parity on the with-side; the top item falls at each call.
ghost use Rattle.std.specs.Prelude.{◌≡◌, cond};
ghost use Rattle.store.specs.Operations.{named, parity_number};
ghost use Rattle.store.specs.Inner.{reached, Ran};
ghost use Rattle.op_parity.specs.Inner.{PartAsks, PartStepAsks};

use op_cache::{Call, group_of, recall};
use op_step::keep;
use store::record::{Fill, Unplaced};
use store_node::getnode::node_of;
use store_sides::sides_at;

// Kept: a parity is a bool, true for even, as in the definitions (`parity`, `ParityCall`); an enum of two would be turned
// into it in each clause.
// The number of a parity, as the cache has it.
fn number_of(even: bool) -> u32
    ensures { result ≡ parity_number even }
{
    if even { 7 } else { 8 }
}

// The even part of {} or {{}}, which is the family itself, or else its odd part, which is {}.
pub fn leaf_part(even: bool, p: u32) -> u32
    ensures { result ≡ cond even p 0 }
{
    if even { p } else { 0 }
}

// The even part of a family whose top is the level, or else its odd part: of {} and {{}} at once, else by the two sides.
#[cycle(expand_part)]
fn part(
    even: bool,
    p: u32,
    level: u32,
    fill: &mut Fill,
    nodes: &mut [u32],
    lookup: &mut [u32],
    cache: &mut [u32],
) -> Result<u32, Unplaced>
    requires { PartAsks p level fill.old nodes.old lookup.old }
    ensures { Ran 0 (λ B. named (parity_number even) B p 0) fill.old nodes.old lookup.old cache.old (reached fill.new result) nodes.new lookup.new cache.new }
{
    if level == 0 {
        return Ok(leaf_part(even, p));
    }
    expand(even, p, level, fill, nodes, lookup, cache)
}

// The same where the top is an item: the cache, else the same part of the without-side, the other part of the
// with-side, and their node.
#[cycle(expand_part)]
pub fn expand(
    even: bool,
    p: u32,
    level: u32,
    fill: &mut Fill,
    nodes: &mut [u32],
    lookup: &mut [u32],
    cache: &mut [u32],
) -> Result<u32, Unplaced>
    requires { PartStepAsks p level fill.old nodes.old lookup.old }
    ensures { Ran 0 (λ B. named (parity_number even) B p 0) fill.old nodes.old lookup.old cache.old (reached fill.new result) nodes.new lookup.new cache.new }
{
    let call = Call {
        op: number_of(even),
        p,
        q: 0,
    };
    let group = group_of(call, cache.len());
    if let Some(handle) = recall(cache, group, fill.count, call) {
        return Ok(handle);
    }
    let Some(sides) = sides_at(nodes, fill.count, p, level) else {
        return Err(Unplaced::Damaged);
    };
    let zero = part(even, sides.zero, sides.ztop, fill, nodes, lookup, cache)?;
    let one = part(!even, sides.one, sides.otop, fill, nodes, lookup, cache)?;
    let made = node_of(fill, nodes, lookup, level, zero, one);
    keep(cache, group, call, made);
    made
}
