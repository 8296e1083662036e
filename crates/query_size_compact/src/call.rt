// The call.
ghost use Rattle.store.specs.Inner.{HandleAsks};
ghost use Rattle.query_size_compact.specs.Inner.{Counted};
ghost use Rattle.query_size_compact.specs.Promise.{CompactCall};

use query_parts::entries::{Parts, places_in};
use query_walk::sizes::size_of;
use query_walk::walk::descend;
use store::record::{Answered, Refusal, Store};
use store::tests::tested;

// The number of members of a handle that is held.
fn counted(nodes: &[u32], count: u32, p: u32, scratch: &mut [u64]) -> Result<u64, Refusal>
    requires { HandleAsks nodes.now count p }
    ensures { Counted nodes.now count p scratch.old result scratch.new }
{
    if p < 2 {
        return Ok(u64::from(p));
    }
    let places = places_in(scratch.len(), count);
    if places == 0 {
        return Err(Refusal::Scratch);
    }
    let mut parts = Parts::new(scratch, places);
    let Some(number) = descend(p, 513, nodes, count, &mut parts) else {
        return Err(Refusal::Scratch);
    };
    size_of(&parts, number).ok_or(Refusal::Large)
}

// The number of members of p, in scratch of two words for each part of p.
pub fn size_compact(
    store: Store,
    nodes: &[u32],
    lookup: &[u32],
    p: u32,
    scratch: &mut [u64],
) -> Answered<u64>
    ensures { CompactCall store nodes.now lookup.now p scratch.old result scratch.new }
{
    if let Err(refusal) = tested(store, nodes.len(), lookup.len(), p, 0, Ok(()), 0, 0) {
        return store.refused(refusal);
    }
    store.answered(counted(nodes, store.count, p, scratch))
}
