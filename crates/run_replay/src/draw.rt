// What is drawn for a call.
// Kept: a way is a drawn number, here and in the other files, and its arms say how often each case comes.

// One step of the 32-bit xorshift with shifts 13, 17 and 5.
pub fn step(x: u32) -> u32 {
    let a = x ^ (x << 13);
    let b = a ^ (a >> 17);
    b ^ (b << 5)
}

// The five numbers drawn for a call.
#[derive(Clone, Copy)]
pub struct Drawn {
    pub kind: u32,
    pub a: u32,
    pub b: u32,
    pub c: u32,
    pub d: u32,
}

// Draws the five numbers.
pub fn draw(x: u32) -> Drawn {
    let kind = step(x);
    let a = step(kind);
    let b = step(a);
    let c = step(b);
    let d = step(c);
    Drawn { kind, a, b, c, d }
}

// A handle: often one of the newest eight, else any that is held; seldom one that is too large.
pub fn handle(x: u32, count: u32) -> u32 {
    let pick = x / 32;
    match x % 32 {
        0 => count.wrapping_add(2),
        1 => u32::MAX,
        2..=15 if 8 <= count => count.wrapping_add(1).wrapping_sub(pick % 8),
        _ => pick.checked_rem(count.wrapping_add(2)).unwrap_or(0),
    }
}

// One of the first or the last so many items up to the limit; seldom a number at an edge: 0, the limit, 512, the number
// above either, or the largest word.
pub fn item(x: u32, items: u32, limit: u32) -> u32 {
    let pick = (x / 32).checked_rem(items).unwrap_or(0);
    match x % 32 {
        0 => 0,
        1 => limit,
        2 => limit.wrapping_add(1),
        3 => 512,
        4 => 513,
        5 => u32::MAX,
        6..=15 => limit.wrapping_sub(pick),
        _ => pick.wrapping_add(1),
    }
}
