// What the lists are run with.
use crate::draw::Drawn;

// What comes before the drawn calls of a list: nothing, all subsets of 64 items, families of simple shapes, or a family of
// 200 parts.
#[derive(Clone, Copy)]
pub enum Opening {
    Nothing,
    Subsets,
    Shapes,
    Tall,
}

// What is lent to a list, its limit, how many items it draws from either end, how many calls it has, and what comes before
// them.
#[derive(Clone, Copy)]
pub struct Setting {
    pub nodes: usize,
    pub lookup: usize,
    pub cache: usize,
    pub limit: u32,
    pub items: u32,
    pub calls: u32,
    pub opening: Opening,
}

// The setting of these numbers, with no opening.
fn of(nodes: usize, lookup: usize, cache: usize, limit: u32, items: u32, calls: u32) -> Setting {
    Setting {
        nodes,
        lookup,
        cache,
        limit,
        items,
        calls,
        opening: Opening::Nothing,
    }
}

// The settings of the first lists. The first six are refused by Fresh; the limits of the next ten fall, so that the file
// of most has an item above the next one's limit.
pub fn first() -> [Setting; 16] {
    [
        of(2, 5, 8, 0, 3, 12),
        of(2, 2, 8, 512, 3, 0),
        of(14, 4, 8, 513, 3, 0),
        of(14, 4, 8, 64, 3, 0),
        of(14, 5, 8, 0, 3, 12),
        of(14, 5, 8, 513, 3, 0),
        of(12, 7, 0, 512, 2, 130),
        Setting {
            opening: Opening::Tall,
            ..of(2701, 907, 4099, 512, 512, 280)
        },
        of(240, 83, 64, 511, 3, 320),
        Setting {
            opening: Opening::Subsets,
            ..of(3002, 2053, 4096, 70, 70, 270)
        },
        of(151, 53, 29, 64, 3, 310),
        of(75, 64, 0, 33, 2, 250),
        of(43, 15, 4, 32, 2, 220),
        of(600, 211, 255, 31, 5, 320),
        of(14, 5, 3, 2, 2, 130),
        of(3, 2, 0, 1, 1, 80),
    ]
}

// The setting of the last list.
pub fn last() -> Setting {
    Setting {
        opening: Opening::Shapes,
        ..of(1291, 439, 1021, 512, 270, 60)
    }
}

// The limits that are drawn.
const LIMITS: [u32; 8] = [1, 2, 31, 32, 33, 64, 511, 512];

// A drawn setting: a small store and few calls.
pub fn drawn_setting(drawn: Drawn) -> Setting {
    let nodes = 3 + drawn.a as usize % 24;
    of(
        nodes,
        nodes / 3 + 1 + drawn.b as usize % 8,
        drawn.c as usize % 40,
        LIMITS[drawn.kind as usize % 8],
        1 + drawn.d % 3,
        14,
    )
}
