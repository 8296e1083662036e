// Has: whether a combination is a member.
#![tactic(auto)]

ghost use Rattle.std.specs.Prelude.{◌≡◌, ◌+◌, ◌≤◌, length};
ghost use Rattle.store.specs.Inner.{HandleAsks};
ghost use Rattle.family.specs.Combination.{items_of};
ghost use Rattle.query_has.specs.Promise.{HasCall};
ghost use Rattle.query_has.specs.Inner.{Memberly, Stepped};

use combination::{Combination, take_out};
use store::record::{Answered, Refusal, Store};
use store::tests::tested;

// A step down from the node whose words start at `base`: to its one child where its item is to be met, which is then
// taken out of the rest, else to its zero child.
fn step(nodes: &[u32], base: usize, rest: &mut [u32; 16]) -> u32
    requires { base + 3 ≤ length nodes.now }
    ensures { Stepped nodes.now base (items_of rest.old) result (items_of rest.new) }
{
    let zero = nodes[base + 1];
    let one = nodes[base + 2];
    if take_out(rest, nodes[base]) {
        one
    } else {
        zero
    }
}

// Whether the combination is a member of p: one way down, at most 512 nodes, which ends at {{}} with no item left to
// be met.
fn is_member(nodes: &[u32], count: u32, p: u32, combination: Combination) -> bool
    requires { HandleAsks nodes.now count p }
    ensures { Memberly nodes.now count p (items_of combination.words) result }
{
    let mut at = p;
    let mut rest = combination;
    for _ in 0..512u32 {
        if at < 2 {
            break;
        }
        if count + 1 < at {
            return false;
        }
        at = step(nodes, 3 * (at - 2) as usize, &mut rest.words);
    }
    at == 1 && rest.is_empty()
}

// Whether the combination is a member of p, or what refuses the call.
fn asked(
    store: Store,
    nodes: &[u32],
    lookup: &[u32],
    p: u32,
    combination: Combination,
) -> Result<bool, Refusal>
    ensures { HasCall store nodes.now lookup.now p (items_of combination.words) (record { store = store; answer = result }) }
{
    tested(store, nodes.len(), lookup.len(), p, 0, Ok(()), 0, 0)?;
    Ok(is_member(nodes, store.count, p, combination))
}

// Whether the combination is a member of p.
#[tactic(auto, using(crate::proofs::Asking::has_call))]
pub fn has(
    store: Store,
    nodes: &[u32],
    lookup: &[u32],
    p: u32,
    combination: Combination,
) -> Answered<bool>
    ensures { HasCall store nodes.now lookup.now p (items_of combination.words) result }
{
    store.answered(asked(store, nodes, lookup, p, combination))
}
