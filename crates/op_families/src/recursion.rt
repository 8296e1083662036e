// Union, Intsec and Diff: the recursion on the two sides; the larger top item falls at each call. The tops
// are read only where neither a terminal case nor the cache answers.
ghost use Rattle.op_cache.specs.Inner.{call_of};
ghost use Rattle.store.specs.Operations.{named};
ghost use Rattle.store.specs.Inner.{reached, Ran};
ghost use Rattle.op_terminal.specs.Inner.{set_number};
ghost use Rattle.op_families.specs.Inner.{ForkAsks, ApplyAsks, FamilyStepAsks, ForkOf};

use op_cache::{Call, group_of, recall};
use op_step::keep;
use op_terminal::families::{SetOperation, ordered, shortcut};
use store::record::{Fill, Unplaced};
use store_node::getnode::node_of;
use store_sides::{Cofactors, cofactors_at, top_of};

// The larger top of two families with the sides of both at it.
#[derive(Clone, Copy)]
pub struct Fork {
    pub level: u32,
    pub p0: u32,
    pub q0: u32,
    pub p1: u32,
    pub q1: u32,
}

// The sides of both operands at their larger top, an item below the bound. None on words that no sound store has.
fn fork_at(nodes: &[u32], count: u32, call: Call, bound: u32) -> Option<Fork>
    requires { ForkAsks nodes.now count call bound }
    ensures { ForkOf nodes.now count call bound result }
{
    let ptop = top_of(nodes, count, call.p);
    let qtop = top_of(nodes, count, call.q);
    let level = ptop.max(qtop);
    if level == 0 {
        return None;
    }
    if bound <= level {
        return None;
    }
    let Cofactors { zero: p0, one: p1 } = cofactors_at(nodes, count, call.p, ptop, level)?;
    let Cofactors { zero: q0, one: q1 } = cofactors_at(nodes, count, call.q, qtop, level)?;
    Some(Fork {
        level,
        p0,
        q0,
        p1,
        q1,
    })
}

// The operation on two families whose tops are below the bound in a sound store: terminal cases at once, else by the
// two sides.
#[cycle(apply_expand)]
fn apply(
    op: SetOperation,
    p: u32,
    q: u32,
    bound: u32,
    fill: &mut Fill,
    nodes: &mut [u32],
    lookup: &mut [u32],
    cache: &mut [u32],
) -> Result<u32, Unplaced>
    requires { ApplyAsks (call_of (set_number op) p q) bound fill.old nodes.old lookup.old }
    ensures { Ran 0 (λ B. named (set_number op) B p q) fill.old nodes.old lookup.old cache.old (reached fill.new result) nodes.new lookup.new cache.new }
{
    if let Some(handle) = shortcut(op, p, q) {
        return Ok(handle);
    }
    let (first, second) = ordered(op, p, q);
    expand(op, first, second, bound, fill, nodes, lookup, cache)
}

// The same where it is no terminal case: the cache, else the two sides and the node of their results.
#[cycle(apply_expand)]
pub fn expand(
    op: SetOperation,
    p: u32,
    q: u32,
    bound: u32,
    fill: &mut Fill,
    nodes: &mut [u32],
    lookup: &mut [u32],
    cache: &mut [u32],
) -> Result<u32, Unplaced>
    requires { FamilyStepAsks (call_of (set_number op) p q) bound fill.old nodes.old lookup.old }
    ensures { Ran 0 (λ B. named (set_number op) B p q) fill.old nodes.old lookup.old cache.old (reached fill.new result) nodes.new lookup.new cache.new }
{
    let call = Call {
        op: op.into(),
        p,
        q,
    };
    let group = group_of(call, cache.len());
    if let Some(handle) = recall(cache, group, fill.count, call) {
        return Ok(handle);
    }
    let Some(fork) = fork_at(nodes, fill.count, call, bound) else {
        return Err(Unplaced::Damaged);
    };
    let level = fork.level;
    let zero = apply(op, fork.p0, fork.q0, level, fill, nodes, lookup, cache)?;
    let one = apply(op, fork.p1, fork.q1, level, fill, nodes, lookup, cache)?;
    let made = node_of(fill, nodes, lookup, level, zero, one);
    keep(cache, group, call, made);
    made
}
