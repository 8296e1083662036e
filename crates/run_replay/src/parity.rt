// The even and the odd part of a family, and what the two give together.
use crate::lend::Lent;
use crate::placing::Call;
use crate::replay::Replay;
use op_promise::Operation;
use std::io;

impl Replay<'_> {
    // Even and Odd of p, then Intsec and Union of both parts, each with all words lent, and so much of the cache.
    pub fn parity(&mut self, rt: &impl Print, p: u32, cache: usize) -> io::Result<()> {
        let even = self.place(
            rt,
            Call::Even(p),
            Lent {
                cache,
                ..self.everything()
            },
        )?;
        let odd = self.place(
            rt,
            Call::Odd(p),
            Lent {
                cache,
                ..self.everything()
            },
        )?;
        for op in [Operation::Intsec, Operation::Union] {
            self.place(
                rt,
                Call::Operate(op, even, odd),
                Lent {
                    cache,
                    ..self.everything()
                },
            )?;
        }
        Ok(())
    }
}
