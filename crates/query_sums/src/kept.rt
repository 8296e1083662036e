// Numbers of any size: each is kept as itself, or as None where it is above 2^64 - 1.
ghost use Rattle.query_sums.specs.Inner.{Added, Multiplied};

// The sum of two numbers.
pub fn kept_sum(a: Option<u64>, b: Option<u64>) -> Option<u64>
    ensures { Added a b result }
{
    a?.checked_add(b?)
}

// A weight times a number: a weight of 0 makes 0 of any number.
pub fn kept_product(weight: u64, a: Option<u64>) -> Option<u64>
    ensures { Multiplied weight a result }
{
    if weight == 0 {
        return Some(0);
    }
    weight.checked_mul(a?)
}
