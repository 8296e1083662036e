// Lists of 32-bit words: zeroing a part. The case splits that all proofs use stand in proofs/.
#![tactic(auto)]

ghost use Rattle.std.specs.Prelude.{◌≡◌, ◌/◌, ◌*◌, length};
ghost use Rattle.words.specs.Words.{zeroed};
ghost use Rattle.words.specs.Inner.{Stretch};

// Zeroes the words from one place up to another.
#[tactic(auto, unfolding(crate::specs::Words::zeroed))]
pub fn zero(words: &mut [u32], from: usize, to: usize)
    requires { Stretch words.old from to }
    ensures { words.new ≡ zeroed from to words.old }
{
    words[from..to].fill(0);
}

// Zeroes the whole groups of four words.
pub fn zero_groups(words: &mut [u32])
    ensures { words.new ≡ zeroed 0 (length words.old / 4 * 4) words.old }
{
    let end = words.len() / 4 * 4;
    zero(words, 0, end);
}
