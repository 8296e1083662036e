// A table of the parts of a family in lent words: two words for each part, a tag and a size. Parts stand one behind the
// other as they are entered, and those with the same start are chained, so that a table that is just full is as quick as
// one with room.
#![tactic(auto)]

pub mod entries;
pub mod tag;
