// Sizes as they stand in the table, a word each.
ghost use Rattle.std.specs.Prelude.{◌≡◌, cond, eqb, None};
ghost use Rattle.query_walk.specs.Inner.{size_of, SizeAsks, Summed};

use query_parts::entries::Parts;

// The size of a number, where it is at most 2^64 - 1: {} is 0, {{}} is 1, and the parts entered follow.
// Kept: a size is one lent word (no heap, memory lent by the caller). No part is without members, so the word 0 is free
// to tell a size above 2^64 - 1.
pub fn size_of(parts: &Parts<'_>, number: u32) -> Option<u64>
    requires { SizeAsks parts.now number }
    ensures { result ≡ size_of parts.now number }
{
    if number < 2 {
        return Some(u64::from(number));
    }
    match parts.words[parts.places as usize + (number - 2) as usize] {
        0 => None,
        size => Some(size),
    }
}

// The size of a with-side: as `size_of`, but none for {}, which is the with-side of no node of a sound store.
pub fn with_size(parts: &Parts<'_>, number: u32) -> Option<u64>
    requires { SizeAsks parts.now number }
    ensures { result ≡ cond (eqb number 0) None (size_of parts.now number) }
{
    if number == 0 {
        return None;
    }
    size_of(parts, number)
}

// The size of a node by those of its sides.
pub fn sum_of(without: Option<u64>, with: Option<u64>) -> Option<u64>
    ensures { Summed without with result }
{
    without?.checked_add(with?)
}
