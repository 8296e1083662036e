// The walk over the parts of a family, without-side first, then with-side, then the part itself; the top item falls
// from a part to its children.
ghost use Rattle.file_trail.specs.Inner.{ChildrenAsks, SplitOf, came_with, WalkAsks, DescendAsks, WalkOf};

use crate::trail::{Trail, is_met};
use file_record::field::Part;
use store_sides::{Sides, sides_at};

// The children of a part; None on words that no sound store has.
fn children(nodes: &[u32], count: u32, p: u32, top: u32) -> Option<Sides>
    requires { ChildrenAsks nodes.now count p top }
    ensures { SplitOf nodes.now count p top result }
{
    if top == 0 {
        return None;
    }
    sides_at(nodes, count, p, top)
}

// Meets the parts of p that were not met yet, p among them; None on words that no sound store has.
#[cycle(descend_reach)]
fn descend(
    p: u32,
    top: u32,
    nodes: &[u32],
    count: u32,
    trail: &mut Trail,
    links: &mut [u32],
) -> Option<()>
    requires { DescendAsks trail.old p top nodes.now count links.old }
    ensures { WalkOf trail.old p nodes.now count links.old (came_with result trail.new) links.new }
{
    let Sides {
        zero,
        one,
        ztop,
        otop,
    } = children(nodes, count, p, top)?;
    reach(zero, ztop, nodes, count, trail, links)?;
    reach(one, otop, nodes, count, trail, links)?;
    if 1000000 <= trail.parts {
        return None;
    }
    let part = Part {
        item: top,
        zero,
        one,
    };
    trail.visit(links, p, part);
    Some(())
}

// The same, where p may have been met. It is inlined: a child that was met costs no call.
#[cycle(descend_reach)]
fn reach(
    p: u32,
    top: u32,
    nodes: &[u32],
    count: u32,
    trail: &mut Trail,
    links: &mut [u32],
) -> Option<()>
    requires { WalkAsks trail.old p top nodes.now count links.old }
    ensures { WalkOf trail.old p nodes.now count links.old (came_with result trail.new) links.new }
{
    if is_met(links, p) {
        return Some(());
    }
    descend(p, top, nodes, count, trail, links)
}

// The trail once the parts of p that were not met yet are met; None on words that no sound store has.
pub fn walk(
    mut trail: Trail,
    p: u32,
    top: u32,
    nodes: &[u32],
    count: u32,
    links: &mut [u32],
) -> Option<Trail>
    requires { WalkAsks trail p top nodes.now count links.old }
    ensures { WalkOf trail p nodes.now count links.old result links.new }
{
    if is_met(links, p) {
        return Some(trail);
    }
    descend(p, top, nodes, count, &mut trail, links)?;
    Some(trail)
}
