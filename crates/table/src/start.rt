// The start slot of a node's words.
ghost use Rattle.std.specs.Prelude.{◌≡◌, ◌*◌, ◌%◌, ◌^◌, ◌<◌};
ghost use Rattle.table.specs.Start.{start_of};
ghost use Rattle.table.specs.Inner.{StartAsks};

use crate::mix::mix;

// x * 65599 modulo 2^32.
pub fn times_65599(x: u32) -> u32
    ensures { result ≡ x * 65599 % 2 ^ 32 }
{
    x.wrapping_mul(65599)
}

// The slot at which the search for a node's words begins.
#[tactic(auto, using(crate::proofs::Starts::start_steps))]
pub fn start_slot(item: u32, zero: u32, one: u32, slots: usize) -> usize
    requires { StartAsks item slots }
    ensures { result ≡ start_of item zero one slots }
{
    let children = zero.wrapping_add(times_65599(one));
    let sum = mix(item).wrapping_add(times_65599(children));
    sum as usize % slots
}
