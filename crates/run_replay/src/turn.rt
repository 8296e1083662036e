// One turn of a list: draws a call, or both parts of a family, runs it and writes its lines.
use crate::draw::{Drawn, draw, handle, item};
use crate::lend::{part, scratch};
use crate::loads::{needed, taken};
use crate::placing::Call;
use crate::replay::Replay;
use op_promise::Operation;
use std::io;

// The output of a Save: seldom a few bytes, else all of the buffer.
fn output(x: u32, all: usize) -> usize {
    if x % 8 == 0 { x as usize / 8 % 40 } else { all }
}

impl Replay<'_> {
    // The operation of a kind below 27.
    fn drawn_call(&self, kind: u32, drawn: Drawn, items: u32) -> Call {
        let p = handle(drawn.a, self.store.count);
        let q = handle(drawn.b, self.store.count);
        let item = item(drawn.b, items, self.store.limit);
        match kind {
            0..=2 => Call::Operate(Operation::Subset1, p, item),
            3..=5 => Call::Operate(Operation::Subset0, p, item),
            6..=11 => Call::Operate(Operation::Change, p, item),
            12..=16 => Call::Operate(Operation::Union, p, q),
            17..=19 => Call::Operate(Operation::Intsec, p, q),
            20..=22 => Call::Operate(Operation::Diff, p, q),
            23..=24 => Call::Even(p),
            _ => Call::Odd(p),
        }
    }

    // How much of the cache is lent: all of it in a list of more than 16 items.
    fn part(&self, x: u32, items: u32) -> usize {
        if 16 < items {
            self.cache.len()
        } else {
            part(x, self.cache.len())
        }
    }

    // Both parts of a family: of the newest one, or of any.
    fn drawn_parity(&mut self, rt: &impl Print, drawn: Drawn, items: u32) -> io::Result<()> {
        let p = if drawn.b % 2 == 0 {
            handle(drawn.a, self.store.count)
        } else {
            self.newest()
        };
        self.parity(rt, p, self.part(drawn.c, items))
    }

    // Size.
    fn drawn_size(&self, rt: &impl Print, drawn: Drawn) -> io::Result<()> {
        let p = handle(drawn.a, self.store.count);
        let words = scratch(drawn.c, self.store.count as usize, 1100);
        self.size(rt, p, words, self.lend(drawn.d, 0))
    }

    // Has.
    fn drawn_has(&self, rt: &impl Print, drawn: Drawn, items: u32) -> io::Result<()> {
        let p = handle(drawn.a, self.store.count);
        let combination = self.combination(drawn, items, p);
        self.has(rt, p, combination, self.lend(drawn.d, 0))
    }

    // Save.
    fn drawn_save(&mut self, rt: &impl Print, drawn: Drawn) -> io::Result<()> {
        let p = handle(drawn.a, self.store.count);
        let words = scratch(drawn.c, self.store.count as usize, 1100);
        let bytes = output(drawn.b, self.file.len());
        let lent = self.lend(drawn.d, 0);
        self.save(rt, p, words, bytes, lent)
    }

    // Load.
    fn drawn_load(&mut self, rt: &impl Print, drawn: Drawn, items: u32) -> io::Result<()> {
        let all = self.file.len();
        let bytes = taken(drawn.c, self.length, all).min(all);
        let words = scratch(drawn.b, needed(bytes), 12400);
        let lent = self.lend(drawn.d, self.part(drawn.a, items));
        self.load(rt, bytes, words, lent)
    }

    // A drawn byte into the file in the buffer.
    fn damage(&mut self, rt: &impl Print, drawn: Drawn) -> io::Result<()> {
        let at = (drawn.a as usize).checked_rem(self.length).unwrap_or(0);
        let value = drawn.c % if drawn.b % 4 == 0 { 256 } else { 8 };
        if let Some(byte) = self.file.get_mut(at) {
            *byte = value as u8;
        }
        println!(rt; "Byte {at} {value}")
    }

    // Draws a call, or both parts of a family, runs it and writes its lines; or draws a file, or a byte of one.
    pub fn turn(&mut self, rt: &impl Print, items: u32) -> io::Result<()> {
        let drawn = draw(self.draw);
        self.draw = drawn.d;
        let lent = self.lend(drawn.d, self.part(drawn.c, items));
        // Kept: a kind is a drawn number, and the ranges, here and in `drawn_call`, say how often each call comes.
        match drawn.kind % 46 {
            27..=28 => self.drawn_parity(rt, drawn, items),
            29..=30 => self.drawn_size(rt, drawn),
            31..=32 => self.drawn_has(rt, drawn, items),
            33..=34 => self.drawn_save(rt, drawn),
            35..=39 => self.drawn_load(rt, drawn, items),
            40..=41 => self.audit(rt, drawn, lent),
            42..=44 => self.craft_short(rt, drawn),
            45 => self.damage(rt, drawn),
            kind => {
                self.place(rt, self.drawn_call(kind, drawn, items), lent)?;
                Ok(())
            }
        }
    }
}
