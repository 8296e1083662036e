// A tag: the handle of the part at its place, the link to the place before it in its chain, and the link to the head of
// the chain that starts there. Each of the three numbers is below 2^20.
// Kept: a link is a number in one lent word with two others (no heap, memory lent by the caller), so it counts places
// from 1, and 0 ends a chain; the functions here give and take an Option.
ghost use Rattle.std.specs.Prelude.{◌≡◌, ◌<◌};
ghost use Rattle.query_parts.specs.Inner.{handle_in, next_in, head_in, link_to, LinkAsks, Linked, Headed};

// The handle.
pub fn handle_of(tag: u64) -> u32
    ensures { result ≡ handle_in tag }
{
    (tag % 1048576) as u32
}

// The place before, in the same chain.
pub fn next_of(tag: u64) -> Option<u32>
    ensures { link_to result ≡ next_in tag }
{
    ((tag / 1048576 % 1048576) as u32).checked_sub(1)
}

// The head of the chain that starts here.
pub fn head_of(tag: u64) -> Option<u32>
    ensures { link_to result ≡ head_in tag }
{
    ((tag / 1099511627776) as u32).checked_sub(1)
}

// The link to a place, or none.
fn link_of(place: Option<u32>) -> u64
    requires { link_to place < 1048576 }
    ensures { result ≡ link_to place }
{
    match place {
        Some(place) => (place + 1) as u64,
        None => 0,
    }
}

// The tag with this handle and this place before it; the head stays.
pub fn linked(tag: u64, handle: u32, next: Option<u32>) -> u64
    requires { LinkAsks handle (link_to next) }
    ensures { Linked tag handle (link_to next) result }
{
    tag / 1099511627776 * 1099511627776 + link_of(next) * 1048576 + handle as u64
}

// The tag with this head; the handle and the place before it stay.
pub fn headed(tag: u64, head: Option<u32>) -> u64
    requires { link_to head < 1048576 }
    ensures { Headed tag (link_to head) result }
{
    tag % 1099511627776 + link_of(head) * 1099511627776
}
