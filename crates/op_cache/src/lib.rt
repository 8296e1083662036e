// The cache: groups of four words, operation, two operands, result.
#![tactic(auto)]

ghost use Rattle.std.specs.Prelude.{◌/◌, ◌<◌, ◌≤◌};
ghost use Rattle.op_cache.specs.Inner.{RecallOf, Remembered};

// An operation by its number, with its two operands.
// Kept: the operation is a number here, as the words of a group have it, and C lends those.
#[derive(Clone, Copy)]
pub struct Call {
    pub op: u32,
    pub p: u32,
    pub q: u32,
}

// Kept: where there is no group the number is 0: `recall` and `remember` test every number against the cache, on which
// its bounds hang, so an Option would be a second test.
// The number of a call's group in a cache of so many words; 0 where there is none. Rising first operands go to groups
// side by side, and the second operand is spread.
pub fn group_of(call: Call, words: usize) -> usize
    ensures { 0 < words / 4 → result < words / 4 }
{
    let groups = words / 4;
    if groups == 0 {
        return 0;
    }
    let spread = call.q as u64 * 2654435761 % 4294967296 / 1024;
    let sum = call.p as u64 + spread + call.op as u64 * 1000003;
    sum as usize % groups
}

// The result of a call in the group of this number, where the group has that call and the result is a handle held.
pub fn recall(cache: &[u32], group: usize, count: u32, call: Call) -> Option<u32>
    requires { count ≤ 1000000 }
    ensures { RecallOf cache.now count call result }
{
    if cache.len() / 4 <= group {
        return None;
    }
    let at = 4 * group;
    if cache[at + 1] != call.p {
        return None;
    }
    if cache[at + 2] != call.q {
        return None;
    }
    if cache[at] != call.op {
        return None;
    }
    let result = cache[at + 3];
    if count + 1 < result {
        return None;
    }
    Some(result)
}

// Puts a call and its result into the group of this number, where there is one.
pub fn remember(cache: &mut [u32], group: usize, call: Call, res: u32)
    ensures { Remembered cache.old call res cache.new }
{
    if cache.len() / 4 <= group {
        return;
    }
    let at = 4 * group;
    cache[at] = call.op;
    cache[at + 1] = call.p;
    cache[at + 2] = call.q;
    cache[at + 3] = res;
}
