// Subset1, Subset0 and Change by an item that is not below the top.
ghost use Rattle.std.specs.Prelude.{◌≡◌};
ghost use Rattle.op_terminal.specs.Inner.{item_number, LeafAsks};
ghost use Rattle.op_cache.specs.Inner.{call_of};
ghost use Rattle.store.specs.Operations.{named};
ghost use Rattle.store.specs.Inner.{reached, RanPlain};

use store::record::{Fill, Unplaced};
use store_node::getnode::node_of;
use store_sides::{Cofactors, cofactors_at};

// The operations on a family and an item.
#[derive(Clone, Copy)]
pub enum ItemOperation {
    Subset1,
    Subset0,
    Change,
}

// Its number, as the cache has it.
impl From<ItemOperation> for u32 {
    ghost from_gives = { λ op number. number ≡ item_number op };

    fn from(op: ItemOperation) -> u32 {
        match op {
            ItemOperation::Subset1 => 1,
            ItemOperation::Subset0 => 2,
            ItemOperation::Change => 3,
        }
    }
}

// A family whose top, the level, is not above the item: its two sides at the item are the results of Subset0 and
// Subset1, and Change swaps them.
pub fn leaf(
    op: ItemOperation,
    p: u32,
    item: u32,
    level: u32,
    fill: &mut Fill,
    nodes: &mut [u32],
    lookup: &mut [u32],
) -> Result<u32, Unplaced>
    requires { LeafAsks (call_of (item_number op) p item) level fill.old nodes.old lookup.old }
    ensures { RanPlain item (λ B. named (item_number op) B p item) fill.old nodes.old lookup.old (reached fill.new result) nodes.new lookup.new }
{
    let Some(Cofactors { zero, one }) = cofactors_at(nodes, fill.count, p, level, item) else {
        return Err(Unplaced::Damaged);
    };
    match op {
        ItemOperation::Subset1 => Ok(one),
        ItemOperation::Subset0 => Ok(zero),
        ItemOperation::Change => node_of(fill, nodes, lookup, item, one, zero),
    }
}
