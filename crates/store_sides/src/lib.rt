// Reading nodes: the top of a handle, and its two sides at an item. Every child is tested before it is handed on.
#![tactic(auto)]

ghost use Rattle.std.specs.Prelude.{◌≡◌, ◌+◌, ◌*◌, ◌<◌};
ghost use Rattle.store.specs.Words.{top_at};
ghost use Rattle.store_sides.specs.Inner.{TopAsks, CofactorsAsks, CofactorsOf, SidesAsks, SidesOf};

// The top of a handle: 0 for the handles 0 and 1.
pub fn top_of(nodes: &[u32], count: u32, p: u32) -> u32
    requires { TopAsks nodes.now count p }
    ensures { result ≡ top_at nodes.now p }
{
    if p < 2 {
        return 0;
    }
    nodes[3 * (p - 2) as usize]
}

// The two sides of a family at an item.
#[derive(Clone, Copy)]
pub struct Cofactors {
    pub zero: u32,
    pub one: u32,
}

// The sides of p at a level that is not below its top: its children where the level is its top, else p itself and {}.
// None on words that no sound store has.
pub fn cofactors_at(nodes: &[u32], count: u32, p: u32, top: u32, level: u32) -> Option<Cofactors>
    requires { CofactorsAsks nodes.now count p top level }
    ensures { CofactorsOf nodes.now count p level result }
{
    if top < level {
        return Some(Cofactors { zero: p, one: 0 });
    }
    let base = 3 * (p - 2) as usize;
    let zero = nodes[base + 1];
    let one = nodes[base + 2];
    if count + 1 < zero {
        return None;
    }
    if count + 1 < one {
        return None;
    }
    Some(Cofactors { zero, one })
}

// The two sides with their tops, which are below the item.
#[derive(Clone, Copy)]
pub struct Sides {
    pub zero: u32,
    pub one: u32,
    pub ztop: u32,
    pub otop: u32,
}

// The sides of p at a level that is not below its top, with their tops. None on words that no sound store has.
pub fn sides_at(nodes: &[u32], count: u32, p: u32, level: u32) -> Option<Sides>
    requires { SidesAsks nodes.now count p level }
    ensures { SidesOf nodes.now count p level result }
{
    let top = top_of(nodes, count, p);
    let Cofactors { zero, one } = cofactors_at(nodes, count, p, top, level)?;
    let ztop = top_of(nodes, count, zero);
    if level <= ztop {
        return None;
    }
    let otop = top_of(nodes, count, one);
    if level <= otop {
        return None;
    }
    Some(Sides {
        zero,
        one,
        ztop,
        otop,
    })
}
