// Writing a record to the front of what remains of the output.
ghost use Rattle.std.specs.Prelude.{◌≡◌, cond, ◌+◌, ◌≤◌, ◌<◌, length};
ghost use Rattle.std.proofs.lemmas.List.Edits.{sets};
ghost use Rattle.family.specs.Record.{field, triple, record_bytes};

use crate::field::{Last, Part};

// Writes a field of so many bytes, low byte first, where it stands; gives the place after it.
pub fn put_field(out: &mut [u8], at: usize, width: usize, stands: bool, value: u32) -> usize
    requires { at + cond stands width 0 ≤ length out.old }
    ensures value { result ≡ at + cond stands width 0 }
    ensures out_after { out.new ≡ sets out.old at (field width stands value) }
{
    if !stands {
        return at;
    }
    let mut left = value;
    for place in at..at + width {
        out[place] = (left % 256) as u8;
        left /= 256;
    }
    at + width
}

// Writes the record of a part to the front of the output, and gives its length.
pub fn put_record(out: &mut [u8], last: Last, part: Part) -> usize
    requires item_bound { last.item < 65535 }
    requires one_in_bounds { length (record_bytes last.item last.number (triple part.item part.zero part.one)) ≤ length out.old }
    ensures value { result ≡ length (record_bytes last.item last.number (triple part.item part.zero part.one)) }
    ensures out_after { out.new ≡ sets out.old 0 (record_bytes last.item last.number (triple part.item part.zero part.one)) }
{
    let standing = part.standing(last);
    out[0] = standing.map();
    let after_item = put_field(out, 1, 2, standing.item, part.item);
    let after_zero = put_field(out, after_item, 4, standing.zero, part.zero);
    put_field(out, after_zero, 4, standing.one, part.one)
}
