// The words that are lent to a store, and tests against those from before.
use std::io;
use store::record::Store;
use store_audit::audit::audit;

// The words of a store of 100,100 nodes, with two spare node words and three spare cache words; and room for copies of
// the node words and the lookup.
#[derive(Drop)]
pub struct Words<'a> {
    pub nodes: &'a mut [u32; 300302],
    pub lookup: &'a mut [u32; 150001],
    pub cache: &'a mut [u32; 4099],
    pub node_copy: &'a mut [u32; 300302],
    pub lookup_copy: &'a mut [u32; 150001],
}

// Yes or no.
// Kept: `run_replay` has its own: in a library it would be a public function with nothing to promise.
fn told(yes: bool) -> &'static str {
    if yes { "yes" } else { "no" }
}

impl Words<'_> {
    // Copies the node words and the lookup.
    pub fn keep(&mut self) {
        let nodes = &mut *self.nodes;
        let node_copy = &mut *self.node_copy;
        node_copy.copy_from_slice(nodes);
        let lookup = &mut *self.lookup;
        let lookup_copy = &mut *self.lookup_copy;
        lookup_copy.copy_from_slice(lookup);
    }

    // Writes whether the node words and the lookup are as they were copied, the whole cache groups 0, and the cache words
    // past them those from before Fresh.
    pub fn compare(&self, rt: &impl Print) -> io::Result<()> {
        let (groups, spare) = self.cache.split_at(self.cache.len() / 4 * 4);
        let nodes = told(*self.nodes == *self.node_copy);
        println!(rt; "  node words as before: {nodes}")?;
        let lookup = told(*self.lookup == *self.lookup_copy);
        println!(rt; "  lookup as before: {lookup}")?;
        let cleared = told(groups.iter().all(|word| *word == 0));
        println!(rt; "  whole cache groups 0: {cleared}")?;
        let spare = told(spare.iter().all(|word| *word == 7));
        println!(rt; "  spare cache words as before: {spare}")
    }

    // Audits the store, and writes the answer.
    pub fn audit(&mut self, rt: &impl Print, store: Store) -> io::Result<()> {
        let nodes = &mut *self.nodes;
        let lookup = &mut *self.lookup;
        let cache = &mut *self.cache;
        let audited = audit(store, nodes, lookup, cache);
        let sound = told(audited.sound);
        println!(rt; "audit: {sound}")
    }
}
