// How many different parts a family has.

// The words of a node: its item and the handles of both sides.
#[derive(Clone, Copy)]
pub struct Node {
    pub item: u32,
    pub zero: u32,
    pub one: u32,
}

// The node of a handle; none for the handles below 2 and those past the words.
pub fn node_at(nodes: &[u32], p: u32) -> Option<Node> {
    let k = p.checked_sub(2)?;
    let [item, zero, one] = *nodes.as_chunks::<3>().0.get(k as usize)?;
    Some(Node { item, zero, one })
}

// Marks a handle, if the marks reach so far.
fn mark(marks: &mut [bool], p: u32) {
    if let Some(place) = marks.get_mut(p as usize) {
        *place = true;
    }
}

// Kept: 0 is the scratch that a handle not held is asked with.
// The scratch that the second entry of Size needs for p: two words for each part; 0 where p is not held. A part is marked
// from the newest node down: the sides of a node stand before it.
pub fn needed(p: u32, count: u32, nodes: &[u32]) -> usize {
    let mut marks = [false; 1100];
    mark(&mut marks, p);
    for part in (2..count.saturating_add(2)).rev() {
        let marked = marks.get(part as usize).is_some_and(|mark| *mark);
        if marked && let Some(Node { zero, one, .. }) = node_at(nodes, part) {
            mark(&mut marks, zero);
            mark(&mut marks, one);
        }
    }
    2 * marks
        .iter()
        .skip(2)
        .take(count as usize)
        .filter(|part| **part)
        .count()
}
