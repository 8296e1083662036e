// A file that goes from one list's store to the next one's.
use crate::loads::needed;
use crate::placing::Call;
use crate::replay::Replay;
use op_promise::Operation;
use std::io;

impl Replay<'_> {
    // Loads the file of the list before, first in two ways that are refused: in one scratch word too few, and without the
    // last byte.
    pub fn load_carried(&mut self, rt: &impl Print) -> io::Result<()> {
        let bytes = self.length.min(self.file.len());
        self.load_all(rt, bytes, needed(bytes).saturating_sub(1))?;
        self.load_all(rt, bytes.saturating_sub(1), 12400)?;
        self.load_all(rt, bytes, 12400)
    }

    // Makes the file for the next list: changes the newest family by the limit, so that the newest one then holds that item,
    // if there is room, and saves that.
    pub fn save_carried(&mut self, rt: &impl Print) -> io::Result<()> {
        let call = Call::Operate(Operation::Change, self.newest(), self.store.limit);
        self.place_all(rt, call)?;
        let lent = self.everything();
        self.save(rt, self.newest(), 1100, self.file.len(), lent)
    }
}
