// The walk over the parts of a family, without-side first; each part is entered once both its sides are. A number is
// that of a local book: 0 for {}, 1 for {{}}, then the parts as they were entered. There is no number where there are more
// parts than places, or the words are those of no sound store.
ghost use Rattle.query_walk.specs.Inner.{AppendAsks, Appended, DescendAsks, WalkAsks, Any, New, Walked};

use crate::sizes::{size_of, sum_of, with_size};
use query_parts::entries::Parts;

// Enters p with its size, where there is a place.
fn append(parts: &mut Parts<'_>, p: u32, size: Option<u64>) -> Option<u32>
    requires { AppendAsks parts.old p }
    ensures { Appended p size parts.old parts.new result }
{
    let place = parts.entered;
    if place == parts.places {
        return None;
    }
    parts.enter(p, size.unwrap_or(0));
    Some(place + 2)
}

// Enters the parts of p, whose top is below the bound, that were not entered yet, p the last of them.
#[cycle(descend_reach)]
pub fn descend(p: u32, bound: u32, nodes: &[u32], count: u32, parts: &mut Parts<'_>) -> Option<u32>
    requires { DescendAsks p nodes.now count parts.old }
    ensures { Walked New p bound nodes.now count parts.old parts.new result }
{
    if count + 1 < p {
        return None;
    }
    let base = 3 * (p - 2) as usize;
    let item = nodes[base];
    if bound <= item {
        return None;
    }
    let zero = reach(nodes[base + 1], item, nodes, count, parts)?;
    let one = reach(nodes[base + 2], item, nodes, count, parts)?;
    let without = size_of(parts, zero);
    let with = with_size(parts, one);
    append(parts, p, sum_of(without, with))
}

// The same, where p may be {}, {{}} or a part that was entered. It is inlined: these cost no call.
#[cycle(descend_reach)]
pub fn reach(p: u32, bound: u32, nodes: &[u32], count: u32, parts: &mut Parts<'_>) -> Option<u32>
    requires { WalkAsks nodes.now count parts.old }
    ensures { Walked Any p bound nodes.now count parts.old parts.new result }
{
    if p < 2 {
        return Some(p);
    }
    if let Some(place) = parts.find(p) {
        return Some(place + 2);
    }
    descend(p, bound, nodes, count, parts)
}
