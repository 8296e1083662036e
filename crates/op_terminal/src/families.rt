// Union, Intsec and Diff: the order of the operands, and the cases that need no recursion.
ghost use Rattle.std.specs.Prelude.{◌≡◌};
ghost use Rattle.op_cache.specs.Inner.{call_of};
ghost use Rattle.op_terminal.specs.Inner.{set_number, OrderedAs, ShortcutOf};

// The operations on two families.
#[derive(Clone, Copy)]
pub enum SetOperation {
    Union,
    Intsec,
    Diff,
}

// Its number, as the cache has it.
impl From<SetOperation> for u32 {
    ghost from_gives = { λ op number. number ≡ set_number op };

    fn from(op: SetOperation) -> u32 {
        match op {
            SetOperation::Union => 4,
            SetOperation::Intsec => 5,
            SetOperation::Diff => 6,
        }
    }
}

// The operands of Union and Intsec in rising order: one group of the cache serves both orders.
pub fn ordered(op: SetOperation, p: u32, q: u32) -> (u32, u32)
    ensures { OrderedAs (call_of (set_number op) p q) (call_of (set_number op) result.0 result.1) }
{
    match op {
        SetOperation::Diff => (p, q),
        _ => if p <= q { (p, q) } else { (q, p) },
    }
}

// Document 001's terminal cases: the result where a family is {} or both are the same.
pub fn shortcut(op: SetOperation, p: u32, q: u32) -> Option<u32>
    ensures { ShortcutOf (call_of (set_number op) p q) result }
{
    if p == q {
        return match op {
            SetOperation::Diff => Some(0),
            _ => Some(p),
        };
    }
    if p == 0 {
        return match op {
            SetOperation::Union => Some(q),
            _ => Some(0),
        };
    }
    if q == 0 {
        return match op {
            SetOperation::Intsec => Some(0),
            _ => Some(p),
        };
    }
    None
}
