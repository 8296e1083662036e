// Words that are 0.
ghost use Rattle.words.specs.Inner.{Stretch};
ghost use Rattle.store_audit.specs.Inner.{Decides, Blank};

// Whether the words from one place up to another are 0.
pub fn are_zero(words: &[u32], from: usize, to: usize) -> bool
    requires { Stretch words.now from to }
    ensures { Decides (Blank words.now from to) result }
{
    words[from..to].iter().all(|word| *word == 0)
}
