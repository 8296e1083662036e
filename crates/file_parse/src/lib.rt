// One record of a file read: its fields, and what they stand for.
#![tactic(auto)]

ghost use Rattle.std.specs.Prelude.{◌≡◌, ◌≤◌, ◌<◌, length, drop};
ghost use Rattle.std.proofs.Math.Option.{some};
ghost use Rattle.family.specs.Record.{front, read_number};
ghost use Rattle.file_parse.specs.Inner.{FieldOf, FieldsOf, RecordOf};

use file_record::field::{Last, Part};

// The bit map byte of all three fields: no byte above it is one.
const ALL_FIELDS: u8 = 7;

// What a reader took from the front of some bytes, and how many bytes it took.
#[derive(Clone, Copy)]
pub struct Taken<T> {
    pub value: T,
    pub bytes: usize,
}

// The number in the first bytes, low byte first.
pub fn read_number(bytes: &[u8], width: usize) -> u32
    requires width_bound { width ≤ 4 }
    requires width_in_bounds { width ≤ length bytes.now }
    ensures { read_number width bytes.now ≡ some (front result (drop width bytes.now)) }
{
    let mut value: u32 = 0;
    for at in (0..width).rev() {
        value = u32::from(bytes[at]) + 256 * value;
    }
    value
}

// The field of so many bytes at the front, where it stands; else the other value, and no bytes. None where the bytes
// are no such field.
fn read_field(bytes: &[u8], width: usize, stands: bool, other: u32) -> Option<Taken<u32>>
    requires { width ≤ 4 }
    ensures { FieldOf width stands other bytes.now result }
{
    if !stands {
        return Some(Taken {
            value: other,
            bytes: 0,
        });
    }
    if bytes.len() < width {
        return None;
    }
    let value = read_number(bytes, width);
    if value == other {
        return None;
    }
    Some(Taken {
        value,
        bytes: width,
    })
}

// The three fields after the bit map byte.
fn read_fields(bytes: &[u8], map: u8, last: Last) -> Option<Taken<Part>>
    requires { last.item < 65535 }
    ensures { FieldsOf map last bytes.now result }
{
    let item = read_field(bytes, 2, map % 2 == 1, last.item + 1)?;
    let after_item = item.bytes;
    let zero = read_field(&bytes[after_item..], 4, map / 2 % 2 == 1, 0)?;
    let after_zero = after_item + zero.bytes;
    let one = read_field(&bytes[after_zero..], 4, map / 4 % 2 == 1, last.number)?;
    Some(Taken {
        value: Part {
            item: item.value,
            zero: zero.value,
            one: one.value,
        },
        bytes: after_zero + one.bytes,
    })
}

// The record at the front of the rest of a file.
pub fn read_record(rest: &[u8], last: Last) -> Option<Taken<Part>>
    requires { last.item < 65535 }
    ensures { RecordOf last rest.now result }
{
    let (map, fields) = rest.split_first()?;
    if ALL_FIELDS < *map {
        return None;
    }
    let part = read_fields(fields, *map, last)?;
    Some(Taken {
        value: part.value,
        bytes: 1 + part.bytes,
    })
}
