// The six operations and their numbers; in specs/ and proofs/ their promise, the laws of their ways out, and the bound
// on the nodes that Union, Intsec and Diff add.
#![tactic(auto)]

ghost use Rattle.std.specs.Prelude.{◌≡◌};
ghost use Rattle.op_promise.specs.Promise.{number_of, operation_number};

// The six operations.
#[derive(Clone, Copy, Debug)]
pub enum Operation {
    Subset1,
    Subset0,
    Change,
    Union,
    Intsec,
    Diff,
}

// The operation of a number from 1 to 6; Diff for every other number.
impl From<u32> for Operation {
    ghost from_gives = { λ number op. number_of op ≡ operation_number number };

    #[tactic(auto, using(crate::proofs::Numbering::number_own, crate::proofs::Numbering::number_else))]
    fn from(number: u32) -> Operation {
        match number {
            1 => Operation::Subset1,
            2 => Operation::Subset0,
            3 => Operation::Change,
            4 => Operation::Union,
            5 => Operation::Intsec,
            _ => Operation::Diff,
        }
    }
}

// The number of an operation.
impl From<Operation> for u32 {
    ghost from_gives = { λ op number. number ≡ number_of op };

    fn from(op: Operation) -> u32 {
        match op {
            Operation::Subset1 => 1,
            Operation::Subset0 => 2,
            Operation::Change => 3,
            Operation::Union => 4,
            Operation::Intsec => 5,
            Operation::Diff => 6,
        }
    }
}
