// The tests that both calls share.
ghost use Rattle.std.specs.Prelude.{◌≡◌, ◌*◌};
ghost use Rattle.store.specs.Tests.{test_number, Found};
ghost use Rattle.query_weight.specs.Promise.{weights_test};

use store::record::{Refusal, Store};
use store::tests::tested;

// The test of a list of weights.
fn weights_test(long: usize) -> Result<(), Refusal>
    ensures { test_number result ≡ weights_test long }
{
    if long != 512 {
        return Err(Refusal::Weights);
    }
    Ok(())
}

// What refuses a call over words of these lengths.
pub fn weight_tested(
    store: Store,
    nodes: usize,
    lookup: usize,
    p: u32,
    weights: usize,
    scratch: usize,
) -> Result<(), Refusal>
    ensures { Found store nodes lookup p 0 (weights_test weights) scratch (3 * store.count) result }
{
    tested(
        store,
        nodes,
        lookup,
        p,
        0,
        weights_test(weights),
        scratch,
        3 * store.count as usize,
    )
}
