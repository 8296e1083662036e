// The sums of weights of a family of 200 parts, and its even and its odd part.
use crate::replay::Replay;
use std::io;

impl Replay<'_> {
    // Loads the family, and writes the lines.
    pub fn tall(&mut self, rt: &impl Print) -> io::Result<()> {
        self.craft_tall(rt)?;
        self.load_all(rt, self.length, 12400)?;
        let p = self.newest();
        self.weigh_every(rt, p, 200)?;
        self.parity(rt, p, self.cache.len())
    }
}
