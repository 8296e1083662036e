// The tests before a call, in document 01's order.
ghost use Rattle.std.specs.Prelude.{◌≡◌};
ghost use Rattle.store.specs.Tests.{test_number, item_test, Found};

use crate::record::{Refusal, Store};

// The test of an item in a store of some limit.
pub fn item_test(limit: u32, item: u32) -> Result<(), Refusal>
    ensures { test_number result ≡ item_test limit item }
{
    if item < 1 {
        return Err(Refusal::Item);
    }
    if limit < item {
        return Err(Refusal::Item);
    }
    Ok(())
}

// What refuses a call over words of these lengths: a record that does not fit, a handle that is not held, what the
// call found by its own test, scratch that is short. A call with one handle or none tests the handle 0, which is
// always held.
pub fn tested(
    store: Store,
    nodes: usize,
    lookup: usize,
    p: u32,
    q: u32,
    own: Result<(), Refusal>,
    scratch: usize,
    need: usize,
) -> Result<(), Refusal>
    ensures { Found store nodes lookup p q (test_number own) scratch need result }
{
    if !store.fits(nodes, lookup) {
        return Err(Refusal::Damaged);
    }
    if !store.holds(p) {
        return Err(Refusal::Handle);
    }
    if !store.holds(q) {
        return Err(Refusal::Handle);
    }
    own?;
    if scratch < need {
        return Err(Refusal::Scratch);
    }
    Ok(())
}
