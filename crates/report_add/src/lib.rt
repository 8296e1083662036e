// Adding a combination to a family: made by Change from handle 1 in rising items, then one Union.
#![tactic(auto)]

ghost use Rattle.family.specs.Combination.{items_of};
ghost use Rattle.report_add.specs.Promise.{AddCall};
ghost use Rattle.report_add.specs.Inner.{InRange, ChangeIt, MakeIt};

use combination::Combination;
use op_families::calls::union;
use op_items::calls::change;
use store::record::{Answered, Placement, Store};
use store_fresh::base;

// Changes the family placed last by an item, where the combination holds it and nothing was refused before.
fn change_by(
    made: Answered<Placement>,
    nodes: &mut [u32],
    lookup: &mut [u32],
    cache: &mut [u32],
    items: Combination,
    item: u32,
) -> Answered<Placement>
    requires { InRange item }
    ensures { ChangeIt made nodes.old lookup.old cache.old (items_of items.words) item result nodes.new lookup.new cache.new }
{
    if !items.contains(item) {
        return made;
    }
    match made.answer {
        Ok(last) => change(made.store, nodes, lookup, cache, last.handle, item),
        Err(_) => made,
    }
}

// Makes a combination by Change from handle 1, in rising items.
fn make_combination(
    store: Store,
    nodes: &mut [u32],
    lookup: &mut [u32],
    cache: &mut [u32],
    items: Combination,
) -> Answered<Placement>
    ensures { MakeIt store nodes.old lookup.old cache.old (items_of items.words) result nodes.new lookup.new cache.new }
{
    let mut made = store.placed(base(), 0);
    for item in 1..=512 {
        made = change_by(made, nodes, lookup, cache, items, item);
    }
    made
}

// Adds a combination to the family of a handle, and gives the handle of what that makes.
pub fn add(
    store: Store,
    nodes: &mut [u32],
    lookup: &mut [u32],
    cache: &mut [u32],
    family: u32,
    items: Combination,
) -> Answered<Placement>
    ensures { AddCall store nodes.old lookup.old cache.old family (items_of items.words) result nodes.new lookup.new cache.new }
{
    let made = make_combination(store, nodes, lookup, cache, items);
    match made.answer {
        Ok(combination) => union(made.store, nodes, lookup, cache, family, combination.handle),
        Err(_) => made,
    }
}
