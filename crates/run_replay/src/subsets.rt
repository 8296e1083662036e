// All subsets of 1 to 64 items, families of 2^64 - 1 members and of one more, and two parts of 2^63 members each; their
// sizes by both entries, and the sums of weights of the latter.
use crate::placing::Call;
use crate::replay::Replay;
use op_promise::Operation;
use std::io;

impl Replay<'_> {
    // Runs an operation, and measures what it gives by both entries, the second in scratch by a way.
    fn subset_step(
        &mut self,
        rt: &impl Print,
        way: u32,
        op: Operation,
        p: u32,
        q: u32,
    ) -> io::Result<u32> {
        let handle = self.place_all(rt, Call::Operate(op, p, q))?;
        self.both_sizes(rt, way, handle, self.everything())?;
        Ok(handle)
    }

    // Runs a call, and writes the sizes and the sums of weights of what it gives.
    fn large_step(&mut self, rt: &impl Print, call: Call) -> io::Result<u32> {
        let handle = self.place_all(rt, call)?;
        self.weigh_every(rt, handle, 65)?;
        Ok(handle)
    }

    // Makes all subsets of 64 items; then 2^64 - 1 members and 2^64, each also with an item more; Even and Odd. Then both
    // parts of all subsets but the empty one.
    pub fn subsets(&mut self, rt: &impl Print) -> io::Result<()> {
        let mut all = 1;
        for item in 1..=64 {
            let each = self.subset_step(rt, item - 1, Operation::Change, all, item)?;
            all = self.subset_step(rt, item - 1, Operation::Union, all, each)?;
        }
        let less = self.large_step(rt, Call::Operate(Operation::Diff, all, 1))?;
        self.large_step(rt, Call::Operate(Operation::Change, less, 65))?;
        self.large_step(rt, Call::Operate(Operation::Change, all, 65))?;
        let last = self.large_step(rt, Call::Operate(Operation::Change, 1, 65))?;
        self.large_step(rt, Call::Operate(Operation::Union, less, last))?;
        self.large_step(rt, Call::Even(all))?;
        self.large_step(rt, Call::Odd(all))?;
        self.parity(rt, less, self.cache.len())
    }
}
