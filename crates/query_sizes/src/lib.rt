// The sizes of the nodes held, each from those of its sides; and whether one is above the largest number.
#![tactic(auto)]

ghost use Rattle.std.specs.Prelude.{◌≡◌};
ghost use Rattle.store.specs.Inner.{HandleAsks};
ghost use Rattle.store.specs.Words.{word_of};
ghost use Rattle.query_sizes.specs.Inner.{FillAsks, Filled, Exceeding};

// The size of a handle, from the words of the nodes before; 0 where no word has it, as the definition (`word_of`) has it.
// Kept: `file_write::local` and `file_place::handle_at` read a word for each node too, of 32 bits. One generic over both
// widths would need a bound for its zero and for the handles 0 and 1, and its proof at the bound: longer than these.
pub fn size_at(sizes: &[u64], handle: u32) -> u64
    ensures { result ≡ word_of sizes.now handle }
{
    if handle < 2 {
        return u64::from(handle);
    }
    sizes.get((handle - 2) as usize).copied().unwrap_or(0)
}

// Fills word j with the size of node j + 2, at most 2^64 - 1, for every node held.
pub fn fill_sizes(nodes: &[u32], sizes: &mut [u64], count: u32)
    requires { FillAsks nodes.now sizes.old count }
    ensures { Filled nodes.now count count sizes.old sizes.new }
{
    for j in 0..count {
        let base = 3 * j as usize;
        let zero = size_at(sizes, nodes[base + 1]);
        let one = size_at(sizes, nodes[base + 2]);
        sizes[j as usize] = zero.saturating_add(one);
    }
}

// Whether a size whose word is 2^64 - 1 is above that: where the zero side is {} and the one side's word is 2^64 - 1
// too, the one side's size decides.
pub fn exceeds(nodes: &[u32], sizes: &[u64], count: u32, p: u32) -> bool
    requires { HandleAsks nodes.now count p }
    ensures { Exceeding nodes.now sizes.now count p result }
{
    let mut at = p;
    for _step in 0..512u32 {
        if at < 2 {
            return false;
        }
        let base = 3 * (at - 2) as usize;
        let zero = size_at(sizes, nodes[base + 1]);
        let next = nodes[base + 2];
        let one = size_at(sizes, next);
        if zero != 0 || one < u64::MAX {
            return zero.checked_add(one).is_none();
        }
        if count + 1 < next {
            return false;
        }
        at = next;
    }
    false
}
