// The end of a step of the recursions of document 001, and the laws of their steps.
#![tactic(auto)]

ghost use Rattle.op_step.specs.Inner.{RememberedAnswer};

use op_cache::{Call, remember};
use store::record::Unplaced;

// Keeps the answer of a call in the cache, where it is a handle.
#[tactic(auto, using(crate::proofs::Keeping::remembered_gave, crate::proofs::Keeping::remembered_refused))]
pub fn keep(cache: &mut [u32], group: usize, call: Call, answer: Result<u32, Unplaced>)
    ensures { RememberedAnswer cache.old call answer cache.new }
{
    if let Ok(handle) = answer {
        remember(cache, group, call, handle);
    }
}
