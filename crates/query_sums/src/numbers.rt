// The numbers of the nodes in the scratch. Words 2k and 2k + 1 are the size and the sum of node k + 2, each at most
// 2^64 - 1; where one of them is that, word 2n + k, n being the count, is the node's mark and tells whether it is above.
ghost use Rattle.std.specs.Prelude.{◌≡◌, ◌+◌, ◌<◌, is_none, unwrap_or};
ghost use Rattle.words.specs.Words.{most};
ghost use Rattle.query_sums.specs.Inner.{mark_word, mark_of, WordsAsk, Paired, Told, BothKept, put_numbers};

// The size and the sum of a handle: as its words have them, or kept as numbers of any size.
#[derive(Clone, Copy)]
pub struct Both<T> {
    pub size: T,
    pub sum: T,
}

// Kept: a handle past the nodes has 0, which no caller tells from a number: such words are no sound store's.
// The words of a handle; {} and {{}} have none, and their sums are 0. So are both numbers of a handle past the nodes,
// which only words that hold no book have.
pub fn pair_at(words: &[u64], count: u32, p: u32) -> Both<u64>
    requires { WordsAsk words.now count }
    ensures { Paired words.now count p result }
{
    if p < 2 {
        return Both {
            size: u64::from(p),
            sum: 0,
        };
    }
    if count <= p - 2 {
        return Both { size: 0, sum: 0 };
    }
    let k = 2 * (p - 2) as usize;
    Both {
        size: words[k],
        sum: words[k + 1],
    }
}

// The mark of a handle; {} and {{}} need none.
fn mark_at(words: &[u64], count: u32, p: u32) -> u64
    requires { WordsAsk words.now count }
    ensures { p < count + 2 → result ≡ mark_word words.now count p }
{
    if p < 2 {
        return 0;
    }
    if count <= p - 2 {
        return 0;
    }
    words[2 * count as usize + (p - 2) as usize]
}

// The mark that tells which of two numbers is above the largest word: 1 for the size, 2 for the sum, 3 for both.
// Kept: it is a number and no enum, since it stands in a word of the scratch that the caller lends.
fn mark_of(size: bool, sum: bool) -> u64
    ensures { result ≡ mark_of size sum }
{
    u64::from(size) + 2 * u64::from(sum)
}

// The number of a word: only one of 2^64 - 1 can be above that.
fn kept_of(word: u64, above: bool) -> Option<u64>
    ensures { Told word above result }
{
    if above && word == u64::MAX {
        return None;
    }
    Some(word)
}

// The size and the sum of a handle.
pub fn both_at(words: &[u64], count: u32, p: u32) -> Both<Option<u64>>
    requires { WordsAsk words.now count }
    ensures { BothKept words.now count p result }
{
    let pair = pair_at(words, count, p);
    let mark = mark_at(words, count, p);
    Both {
        size: kept_of(pair.size, mark % 2 == 1),
        sum: kept_of(pair.sum, 1 < mark),
    }
}

// Puts the size and the sum of node j + 2 into its words.
pub fn put_both(words: &mut [u64], count: u32, j: u32, both: Both<Option<u64>>)
    requires words { WordsAsk words.old count }
    requires inside { j < count }
    ensures { words.new ≡ put_numbers words.old count j (unwrap_or both.size most) (unwrap_or both.sum most) (mark_of (is_none both.size) (is_none both.sum)) }
{
    let Both { size, sum } = both;
    let k = 2 * j as usize;
    words[k] = size.unwrap_or(u64::MAX);
    words[k + 1] = sum.unwrap_or(u64::MAX);
    words[2 * count as usize + j as usize] = mark_of(size.is_none(), sum.is_none());
}
