// One entry of a lent column's buffers. The nodes are counted from the column's first node; nothing is asked of the tables.
ghost use Rattle.std.specs.Prelude.{◌≡◌, [], ◌<◌, ◌^◌};
ghost use Rattle.array_data.specs.Tables.{part, length_of, offset_of, place, valid_of};
ghost use Rattle.array_data.specs.entries.Entries.{column, spot_in, entry_in, valid_in};

use crate::lent_tables;
use number::Unsigned;

// Whether a slot is valid; Outside where its bit is not in the body.
#[derive(Clone, Copy)]
pub enum Validity {
    Valid,
    Null,
    Outside,
}

// ---- the numbers of node i of the column that begins at node `first` of the tables

pub fn length_at(lengths: &[u64], first: u32, i: usize) -> u64
    requires { i < 2 ^ 32 }
    ensures { result ≡ length_of (column lengths.now [] [] [] first) i }
{
    lent_tables::length_of(lengths, (first as usize) + i)
}

pub fn offset_at(lengths: &[u64], first: u32, i: usize) -> u64
    requires { i < 2 ^ 32 }
    ensures { result ≡ offset_of (column lengths.now [] [] [] first) i }
{
    lent_tables::offset_of(lengths, (first as usize) + i)
}

// Number j of its nine places.
pub fn place_at(places: &[u64], first: u32, i: usize, j: usize) -> u64
    requires { (i < 2 ^ 32) × (j < 9) }
    ensures { result ≡ place (column [] places.now [] [] first) i j }
{
    lent_tables::place(places, (first as usize) + i, j)
}

// ---- entries of the buffer of `size` bytes from `start` on, as far as the body reaches

// Where entry `slot` of w bytes begins, if the body holds it.
pub fn find_spot(body: &[u8], start: u64, size: u64, w: u8, slot: u64) -> Option<usize>
    ensures { result ≡ spot_in start w (part body.now start size) slot }
{
    if w == 0 {
        return None;
    }
    let len = lent_tables::part_len(body, start, size);
    if len / (w as u64) <= slot {
        return None;
    }
    Some((start as usize) + (slot as usize) * (w as usize))
}

// The number in entry `slot` of w bytes, without a sign, if the body holds it.
pub fn read_entry(body: &[u8], start: u64, size: u64, w: u8, slot: u64) -> Option<u64>
    ensures { result ≡ entry_in w (part body.now start size) slot }
{
    let at = find_spot(body, start, size, w, slot)?;
    match w {
        1 => Some(u8::read(body, at) as u64),
        2 => Some(u16::read(body, at) as u64),
        4 => Some(u32::read(body, at) as u64),
        8 => Some(u64::read(body, at)),
        _ => None,
    }
}

// Whether slot `slot` of node i is valid.
pub fn valid_at(places: &[u64], body: &[u8], first: u32, i: usize, slot: u64) -> Validity
    requires { i < 2 ^ 32 }
    ensures { result ≡ valid_in (valid_of (column [] places.now [] body.now first) i) slot }
{
    if place_at(places, first, i, 0) == 0 {
        return Validity::Valid;
    }
    let start = place_at(places, first, i, 1);
    let size = place_at(places, first, i, 2);
    let Some(byte) = read_entry(body, start, size, 1, slot / 8) else {
        return Validity::Outside;
    };
    if (byte >> (slot % 8)) % 2 == 1 {
        Validity::Valid
    } else {
        Validity::Null
    }
}
