// The lists: Fresh, then so many drawn calls.
use crate::draw::draw;
use crate::output::{record, refused, told};
use crate::replay::Replay;
use crate::settings::{Opening, Setting, drawn_setting, first, last};
use crate::sums::{MARK, cleared, spare};
use std::io;
use store::record::Store;
use store_fresh::fresh;

// Writes some words, after what they are.
fn words_line(rt: &impl Print, name: &str, words: &[u32]) -> io::Result<()> {
    print!(rt; "{name}")?;
    for word in words {
        print!(rt; " {word}")?;
    }
    println!(rt; "")
}

impl Replay<'_> {
    // Fresh, and its line.
    fn fresh(&mut self, rt: &impl Print, limit: u32) -> io::Result<()> {
        let freshened = fresh(self.nodes, self.lookup, self.cache, limit);
        print!(rt;
            "Fresh {} {} {} limit {limit}:",
            self.nodes.len(),
            self.lookup.len(),
            self.cache.len()
        )?;
        match freshened.answer {
            Ok(()) => print!(rt; " done cleared {}", told(cleared(self.cache)))?,
            Err(refusal) => refused(rt, refusal)?,
        }
        record(rt, freshened.store)?;
        println!(rt; " sum {:08x}", self.sum())?;
        self.store = freshened.store;
        self.added = 0;
        Ok(())
    }

    // What comes before the drawn calls: Load of the file of the list before, and the opening.
    fn open(&mut self, rt: &impl Print, opening: Opening) -> io::Result<()> {
        self.load_carried(rt)?;
        match opening {
            Opening::Nothing => Ok(()),
            Opening::Subsets => self.subsets(rt),
            Opening::Shapes => self.shapes(rt),
            Opening::Tall => self.tall(rt),
        }
    }

    // The calls of a list, with the sums of weights of a drawn family after every seventh call, and the size of one by both
    // entries after every fourth; the last make the file for the next list.
    fn calls(&mut self, rt: &impl Print, setting: Setting) -> io::Result<()> {
        self.open(rt, setting.opening)?;
        for left in (1..=setting.calls).rev() {
            self.turn(rt, setting.items)?;
            if left % 7 == 0 {
                self.drawn_weights(rt, setting.items)?;
            }
            if left % 4 == 0 {
                self.drawn_sizes(rt)?;
            }
        }
        self.save_carried(rt)
    }

    // A list: Fresh, its calls, if it has any, and what they leave: what was added, all node words and the lookup, and
    // whether the words past the whole cache groups are as before.
    fn list(&mut self, rt: &impl Print, setting: Setting) -> io::Result<()> {
        let before = spare(self.cache);
        self.fresh(rt, setting.limit)?;
        if 0 < setting.calls {
            self.calls(rt, setting)?;
        }
        println!(rt; "Added {} held {}", self.added, self.store.count)?;
        words_line(rt, "Nodes", self.nodes)?;
        words_line(rt, "Lookup", self.lookup)?;
        println!(rt;
            "Spare cache words kept {}",
            told(spare(self.cache) == before)
        )
    }
}

// The words of all lists, and the buffer of their files; the draw, and the length of the file.
#[derive(Drop)]
struct Lists {
    nodes: [u32; 3010],
    lookup: [u32; 2060],
    cache: [u32; 4100],
    file: [u8; 2048],
    draw: u32,
    length: usize,
}

impl Lists {
    // A list on parts of the words.
    fn list(&mut self, rt: &impl Print, setting: Setting) -> io::Result<()> {
        let Lists {
            nodes,
            lookup,
            cache,
            file,
            draw,
            length,
        } = self;
        let mut replay = Replay {
            draw: *draw,
            store: Store::new(0, 0),
            added: 0,
            nodes: &mut nodes[..setting.nodes.min(3010)],
            lookup: &mut lookup[..setting.lookup.min(2060)],
            cache: &mut cache[..setting.cache.min(4100)],
            file,
            length: *length,
        };
        replay.list(rt, setting)?;
        *draw = replay.draw;
        *length = replay.length;
        Ok(())
    }
}

// All lists, one after the other on the same words. What a setting is drawn from is used up.
pub fn all(rt: &impl Print) -> io::Result<()> {
    let mut lists = Lists {
        nodes: [MARK; 3010],
        lookup: [MARK; 2060],
        cache: [MARK; 4100],
        file: [0; 2048],
        draw: 2463534242,
        length: 0,
    };
    for setting in first() {
        lists.list(rt, setting)?;
    }
    for _ in 0..40 {
        let drawn = draw(lists.draw);
        lists.draw = drawn.d;
        lists.list(rt, drawn_setting(drawn))?;
    }
    lists.list(rt, last())
}
