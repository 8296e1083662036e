// The placing order of the local parts: from the last one down, each part not yet placed must have the next number.
ghost use Rattle.file_read.specs.Inner.{OrderAsks, OrderOf};

// Places the parts of p by number, after those up to `last`, and gives the last number placed; None where they are out
// of their order.
pub fn in_order(nodes: &[u32], count: u32, p: u32, last: u32) -> Option<u32>
    requires { OrderAsks nodes.now count p last }
    ensures { OrderOf nodes.now count p last result }
{
    if p <= last {
        return Some(last);
    }
    let base = 3 * (p - 2) as usize;
    let first = in_order(nodes, count, nodes[base + 1], last)?;
    let second = in_order(nodes, count, nodes[base + 2], first)?;
    if p - 1 != second {
        return None;
    }
    Some(p)
}
