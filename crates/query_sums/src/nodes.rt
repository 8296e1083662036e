// The sizes and the sums of weights of the nodes, from the smallest number up.
ghost use Rattle.std.specs.Prelude.{◌≡◌, true, ◌-◌, ◌≤◌, ◌<◌};
ghost use Rattle.store.specs.Inner.{HandleAsks};
ghost use Rattle.query_sums.specs.Inner.{Small, SmallAsks, put_small, WordsAsk, NodePut, Filled};

use crate::kept::{kept_product, kept_sum};
use crate::numbers::{Both, both_at, pair_at, put_both};
use crate::weights::weight_at;

// Whether both words are so small that the sum of a node over two such handles fits a word, whatever its weight.
fn is_small(pair: Both<u64>) -> bool
    ensures { result ≡ true → Small pair }
{
    pair.size <= 2147483647 && pair.sum <= 4611686018427387903
}

// Puts the numbers of node j + 2, of this weight, over two handles whose words are small.
fn put_small(words: &mut [u64], j: u32, weight: u64, without: Both<u64>, with: Both<u64>)
    requires { SmallAsks words.old j weight without with }
    ensures { words.new ≡ put_small words.old j weight without with }
{
    let k = 2 * j as usize;
    words[k] = without.size + with.size;
    words[k + 1] = without.sum + with.sum + weight * with.size;
}

// Puts the numbers of node j + 2, of these children and this weight, where its numbers may be large.
fn weigh_large(words: &mut [u64], count: u32, j: u32, weight: u64, zero: u32, one: u32)
    requires words { WordsAsk words.old count }
    requires inside { j < count }
    ensures { NodePut count j weight zero one words.old words.new }
{
    let without = both_at(words, count, zero);
    let with = both_at(words, count, one);
    let sides = kept_sum(without.sum, with.sum);
    let both = Both {
        size: kept_sum(without.size, with.size),
        sum: kept_sum(sides, kept_product(weight, with.size)),
    };
    put_both(words, count, j, both);
}

// Puts the numbers of node j + 2, of these children and this weight.
fn weigh_node(words: &mut [u64], count: u32, j: u32, weight: u64, zero: u32, one: u32)
    requires words { WordsAsk words.old count }
    requires inside { j < count }
    requires light { weight ≤ 4294967295 }
    ensures { NodePut count j weight zero one words.old words.new }
{
    let without = pair_at(words, count, zero);
    let with = pair_at(words, count, one);
    if is_small(without) && is_small(with) {
        put_small(words, j, weight, without, with);
        return;
    }
    weigh_large(words, count, j, weight, zero, one);
}

// Puts the numbers of every node up to p.
pub fn weigh_nodes(nodes: &[u32], weights: &[u32], words: &mut [u64], count: u32, p: u32)
    requires nodes { HandleAsks nodes.now count p }
    requires words { WordsAsk words.old count }
    ensures { Filled nodes.now weights.now count (p - 1) words.old words.new }
{
    for j in 0..p.saturating_sub(1) {
        let base = 3 * j as usize;
        let weight = weight_at(weights, nodes[base]);
        weigh_node(words, count, j, weight, nodes[base + 1], nodes[base + 2]);
    }
}
