// The store's record and answers, and the tests of every call.
// Kept: here and in all crates above, a store's node words, lookup and cache are slices beside its record, or beside the
// number of nodes where only those are read, since C lends them so (include/zdd.h) and nothing here takes memory of its own.
#![tactic(auto)]

pub mod record;
pub mod tests;
