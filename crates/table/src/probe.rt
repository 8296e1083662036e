// The probe of the lookup.
ghost use Rattle.std.specs.Prelude.{◌≡◌, ◌*◌, ◌<◌, length};
ghost use Rattle.table.specs.Probe.{stop_on, probe_of, after, SlotOf};
ghost use Rattle.table.specs.Inner.{NodeWords, ProbeAsks};

use crate::start::start_slot;

// Whether the search for words among the first count nodes stops at a slot that holds the number h.
#[tactic(auto, unfolding(crate::specs::Probe::stop_on, crate::specs::Probe::has_words))]
pub fn stops(nodes: &[u32], count: u32, item: u32, zero: u32, one: u32, h: u32) -> bool
    requires { NodeWords nodes.now count }
    ensures { result ≡ stop_on nodes.now count item zero one h }
{
    if h < 2 || count + 1 < h {
        return true;
    }
    let base = 3 * (h - 2) as usize;
    // Kept: three words against three numbers, no two values of one type, so this is no derived equality.
    nodes[base] == item && nodes[base + 1] == zero && nodes[base + 2] == one
}

// The slot after a slot, around the end.
#[tactic(auto, unfolding(crate::specs::Probe::after))]
pub fn next_slot(slot: usize, slots: usize) -> usize
    requires { slot < slots }
    ensures { result ≡ after slots slot }
{
    let next = slot + 1;
    if next == slots { 0 } else { next }
}

// The first slot, from the start slot of the words on and around the end, at which their search stops; None where it
// stops at none.
pub fn probe(
    nodes: &[u32],
    lookup: &[u32],
    count: u32,
    item: u32,
    zero: u32,
    one: u32,
) -> Option<usize>
    requires { ProbeAsks nodes.now lookup.now count item }
    ensures { SlotOf (length lookup.now) (probe_of nodes.now lookup.now count item zero one) result }
{
    let slots = lookup.len();
    let mut slot = start_slot(item, zero, one, slots);
    for _ in 0..slots {
        if stops(nodes, count, item, zero, one, lookup[slot]) {
            return Some(slot);
        }
        slot = next_slot(slot, slots);
    }
    None
}
