// Calls of the six operations.
use op_promise::Operation;
use std::fmt;

// An operation and its two operands.
#[derive(Clone, Copy)]
pub struct Call(pub Operation, pub u32, pub u32);

impl fmt::Display for Call {
    fn fmt<W: fmt::Write>(&self, f: &mut fmt::Formatter<W>) -> fmt::Result {
        let Call(op, p, q) = *self;
        write!(f, "{op:?}({p}, {q})")
    }
}
