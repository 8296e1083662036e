// The line of Has.
use crate::draw::{Drawn, item};
use crate::lend::Lent;
use crate::output::{answer, record, told};
use crate::path::{NONE, member, toggled};
use crate::replay::Replay;
use combination::Combination;
use query_has::has;
use std::io;

// Kept: 513 is no item, so putting it in changes nothing, as it has to.
// An item above the limit, up to 512; 513 where there is none.
fn above(x: u32, limit: u32) -> u32 {
    let room = 512u32.wrapping_sub(limit);
    let first = limit.wrapping_add(1);
    first.wrapping_add(x.checked_rem(room).unwrap_or(0))
}

impl Replay<'_> {
    // A combination: empty, a single item, a member of p, or a member with an item put in or taken out, or with one above
    // the limit put in.
    pub fn combination(&self, drawn: Drawn, items: u32, p: u32) -> Combination {
        let limit = self.store.limit;
        let one = item(drawn.b, items, limit);
        let held = member(self.nodes, p, drawn.c);
        match drawn.d / 64 % 5 {
            0 => NONE,
            1 => toggled(NONE, one),
            2 => held,
            3 => toggled(held, one),
            _ => toggled(held, above(drawn.b, limit)),
        }
    }

    // Asks for a combination in p and writes the line.
    pub fn has(
        &self,
        rt: &impl Print,
        p: u32,
        combination: Combination,
        lent: Lent,
    ) -> io::Result<()> {
        let slots = lent.slots.min(self.lookup.len());
        let asked = has(
            lent.record,
            self.nodes,
            &self.lookup[..slots],
            p,
            combination,
        );
        print!(rt; "Has {p} items")?;
        for item in 1..=512 {
            if combination.contains(item) {
                print!(rt; " {item}")?;
            }
        }
        print!(rt; " lent {slots}:")?;
        answer(rt, asked.answer.map(told))?;
        record(rt, asked.store)?;
        println!(rt; "")
    }
}
