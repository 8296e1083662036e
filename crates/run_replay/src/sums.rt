// Sums and tests of lent words.
use crate::draw::step;

// What scratch words hold before a call.
pub const MARK: u32 = 2779096485;

// What 64-bit scratch words hold before a call.
pub const WIDE_MARK: u64 = 12297829382473034410;

// What can be added to a sum.
pub trait Summed {
    // The sum with this more.
    fn added_to(self, sum: u32) -> u32;
}

impl Summed for u32 {
    fn added_to(self, sum: u32) -> u32 {
        step(sum.wrapping_add(self))
    }
}

impl Summed for u8 {
    fn added_to(self, sum: u32) -> u32 {
        u32::from(self).added_to(sum)
    }
}

// The low half first.
impl Summed for u64 {
    fn added_to(self, sum: u32) -> u32 {
        let low = (self % 4294967296) as u32;
        let high = (self / 4294967296) as u32;
        high.added_to(low.added_to(sum))
    }
}

// The sum with some words or bytes more.
pub fn sum_from<T: Summed + Copy>(start: u32, words: &[T]) -> u32 {
    words.iter().fold(start, |sum, word| word.added_to(sum))
}

// The sum of some words or bytes.
pub fn sum_of<T: Summed + Copy>(words: &[T]) -> u32 {
    sum_from(1, words)
}

// Whether the scratch words from a place on hold what they held before the call.
pub fn kept<T: Copy + PartialEq>(scratch: &[T], from: usize, mark: T) -> bool {
    scratch.iter().skip(from).all(|word| *word == mark)
}

// Whether the whole cache groups are 0.
pub fn cleared(cache: &[u32]) -> bool {
    let groups = cache.len() / 4 * 4;
    cache[..groups].iter().all(|word| *word == 0)
}

// The sum of the words past the whole cache groups.
pub fn spare(cache: &[u32]) -> u32 {
    let groups = cache.len() / 4 * 4;
    sum_of(&cache[groups..])
}
