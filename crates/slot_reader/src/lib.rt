// What one slot of a lent node reads as, by the node's kind: a number, bytes, or the place of a list's rows. The node's own validity is not
// looked at; that of a dictionary's values is.
#![tactic(auto)]

pub mod leaf_row;
pub mod run;
pub mod view;

ghost use Rattle.std.specs.Prelude.{◌≡◌, [], suc, ◌+◌, ◌≤◌, ◌<◌, ◌^◌};
ghost use Rattle.clauses.specs.Slices.{was};
ghost use Rattle.array_data.specs.Tables.{part, length_of, place, first_buffer, second_buffer};
ghost use Rattle.array_data.specs.entries.Entries.{column, spot_in};
ghost use Rattle.slot_reader.specs.Slots.{code_word, code_number, number_read, stretch_in, string_read, data_place, view_at, list_view_read, rows_in, list_read, stored_number, stored_at, dictionary_read, fixed_read, slot_read};

use array_data::entries::Validity;
use array_data::{entries, lent_tables, node_words};
use number::Unsigned;

// A row: null, a number, bytes that stand in the body, or rows of a child; or the ground of refusal.
#[derive(Clone, Copy)]
pub enum RowRead {
    Null,
    Number(crate::leaf_row::Leaf),
    Bytes { at: usize, len: usize },
    List { node: usize, start: u64, len: u64 },
    Refused(u8),
}

// The code of node i's format; 0 where it has none.
pub fn code_word(tree: &[u64], i: usize) -> u8
    requires { i < 2 ^ 33 }
    ensures { result ≡ code_word (was tree) i }
{
    let code = node_words::word(tree, i, 0);
    if schema::formats::LAST_CODE < code {
        return 0;
    }
    code as u8
}

// ---- one kind each, in the buffer of `size` bytes from `start` on

fn read_number(body: &[u8], start: u64, size: u64, code: u8, slot: u64) -> RowRead
    requires { (1 ≤ code) × (code ≤ 10) }
    ensures { result ≡ number_read (code_number code) (part (was body) start size) slot }
{
    let Some(at) = entries::find_spot(body, start, size, schema::formats::width_of(code), slot)
    else {
        return RowRead::Refused(12);
    };
    RowRead::Number(crate::leaf_row::read_leaf(body, at, code))
}

// The bytes a .. b - 1 of the buffer.
fn read_stretch(body: &[u8], start: u64, size: u64, a: u64, b: u64) -> RowRead
    ensures { result ≡ stretch_in start (part (was body) start size) a b }
{
    if b < a {
        return RowRead::Refused(12);
    }
    if lent_tables::part_len(body, start, size) < b {
        return RowRead::Refused(12);
    }
    RowRead::Bytes {
        at: (start as usize) + (a as usize),
        len: (b - a) as usize,
    }
}

// A byte string of node i, whose offsets have w bytes.
fn read_string(places: &[u64], body: &[u8], first: u32, i: usize, w: u8, slot: u64) -> RowRead
    requires { i < 2 ^ 32 }
    ensures { let c = column [] (was places) [] (was body) first in result ≡ string_read w (first_buffer c i) (place (column [] (was places) [] [] first) i 5) (second_buffer c i) slot }
{
    let start = entries::place_at(places, first, i, 3);
    let size = entries::place_at(places, first, i, 4);
    let Some(a) = entries::read_entry(body, start, size, w, slot) else {
        return RowRead::Refused(12);
    };
    let Some(b) = entries::read_entry(body, start, size, w, slot + 1) else {
        return RowRead::Refused(12);
    };
    let from = entries::place_at(places, first, i, 5);
    let len = entries::place_at(places, first, i, 6);
    read_stretch(body, from, len, a, b)
}

// Number j of data buffer b of node i: 0 where it begins, 1 its bytes; 0 where the node has no such buffer.
fn data_place(places: &[u64], buffers: &[u64], first: u32, i: usize, b: u32, j: usize) -> u64
    requires { (i < 2 ^ 32) × (j < 2) }
    ensures { result ≡ data_place (was buffers) (place (column [] (was places) [] [] first) i 7) (place (column [] (was places) [] [] first) i 8) b j }
{
    if entries::place_at(places, first, i, 8) <= b as u64 {
        return 0;
    }
    let a = entries::place_at(places, first, i, 7);
    lent_tables::pair_at(buffers, a, b as u64, j)
}

fn read_view(
    places: &[u64],
    buffers: &[u64],
    body: &[u8],
    first: u32,
    i: usize,
    slot: u64,
) -> RowRead
    requires { i < 2 ^ 32 }
    ensures { let c = column [] (was places) [] (was body) first in result ≡ view_at (was body) (was buffers) (place c i 7) (place c i 8) (spot_in (place c i 3) 16 (first_buffer c i) slot) }
{
    let start = entries::place_at(places, first, i, 3);
    let size = entries::place_at(places, first, i, 4);
    let Some(at) = entries::find_spot(body, start, size, 16, slot) else {
        return RowRead::Refused(12);
    };
    let b = u32::read(body, at + 8);
    let from = data_place(places, buffers, first, i, b, 0) as usize;
    let len = data_place(places, buffers, first, i, b, 1) as usize;
    let shown = view::view_bytes(body, at, body, from, len);
    match view::view_place(body, at, body, from, len) {
        view::Place::Inline { at: p, len: _ } => RowRead::Bytes {
            at: p,
            len: shown.len(),
        },
        view::Place::Data { at: p, len: _ } => RowRead::Bytes {
            at: p,
            len: shown.len(),
        },
        view::Place::Outside => RowRead::Refused(12),
    }
}

// Where the rows of a list-view stand in the child, which is the next node; offsets and sizes have w bytes.
fn read_list_view(places: &[u64], body: &[u8], first: u32, i: usize, w: u8, slot: u64) -> RowRead
    requires { i < 2 ^ 32 }
    ensures { result ≡ list_view_read w (first_buffer (column [] (was places) [] (was body) first) i) (second_buffer (column [] (was places) [] (was body) first) i) (suc i) slot }
{
    let start = entries::place_at(places, first, i, 3);
    let size = entries::place_at(places, first, i, 4);
    let Some(a) = entries::read_entry(body, start, size, w, slot) else {
        return RowRead::Refused(12);
    };
    let from = entries::place_at(places, first, i, 5);
    let room = entries::place_at(places, first, i, 6);
    let Some(n) = entries::read_entry(body, from, room, w, slot) else {
        return RowRead::Refused(12);
    };
    RowRead::List {
        node: i + 1,
        start: a,
        len: n,
    }
}

// The rows a .. b - 1 of node i, which has n rows.
fn rows_of(i: usize, n: u64, a: u64, b: u64) -> RowRead
    ensures { result ≡ rows_in i n a b }
{
    if b < a {
        return RowRead::Refused(12);
    }
    if n < b {
        return RowRead::Refused(12);
    }
    RowRead::List {
        node: i,
        start: a,
        len: b - a,
    }
}

// Where the rows of a list stand in the child, which is the next node: from the slot's offset to the next; offsets have w bytes.
fn read_list(
    lengths: &[u64],
    places: &[u64],
    body: &[u8],
    first: u32,
    i: usize,
    w: u8,
    slot: u64,
) -> RowRead
    requires { i + 1 < 2 ^ 32 }
    ensures { result ≡ list_read w (first_buffer (column [] (was places) [] (was body) first) i) (suc i) (length_of (column (was lengths) [] [] [] first) (suc i)) slot }
{
    let start = entries::place_at(places, first, i, 3);
    let size = entries::place_at(places, first, i, 4);
    let Some(from) = entries::read_entry(body, start, size, w, slot) else {
        return RowRead::Refused(12);
    };
    let Some(to) = entries::read_entry(body, start, size, w, slot + 1) else {
        return RowRead::Refused(12);
    };
    let rows = entries::length_at(lengths, first, i + 1);
    rows_of(i + 1, rows, from, to)
}

// ---- dictionaries

// The stored bytes of an entry of w bytes.
fn read_fixed(body: &[u8], start: u64, size: u64, w: u8, slot: u64) -> RowRead
    ensures { result ≡ stored_number start w (part (was body) start size) slot }
{
    let Some(at) = entries::find_spot(body, start, size, w, slot) else {
        return RowRead::Refused(12);
    };
    RowRead::Bytes {
        at,
        len: w as usize,
    }
}

// The stored bytes of a slot of node i, which is a dictionary's values.
fn read_stored(
    tree: &[u64],
    places: &[u64],
    body: &[u8],
    first: u32,
    i: usize,
    slot: u64,
) -> RowRead
    requires { i < 2 ^ 32 }
    ensures { result ≡ stored_at (was tree) (column [] (was places) [] (was body) first) i slot }
{
    let code = code_word(tree, i);
    if schema::formats::is_string(code) {
        return read_string(
            places,
            body,
            first,
            i,
            schema::formats::width_of(code),
            slot,
        );
    }
    if !schema::formats::is_fixed(code) {
        return RowRead::Refused(10);
    }
    if node_words::word(tree, i, 1) != 0 {
        return RowRead::Refused(10);
    }
    let start = entries::place_at(places, first, i, 3);
    let size = entries::place_at(places, first, i, 4);
    read_fixed(body, start, size, schema::formats::width_of(code), slot)
}

// The entry that a key of w bytes names: null where its own bit is 0.
fn read_dictionary(
    tree: &[u64],
    lengths: &[u64],
    places: &[u64],
    body: &[u8],
    first: u32,
    i: usize,
    w: u8,
    slot: u64,
) -> RowRead
    requires { i + 1 < 2 ^ 32 }
    ensures { result ≡ dictionary_read (was tree) (column (was lengths) (was places) [] (was body) first) i w slot }
{
    let start = entries::place_at(places, first, i, 3);
    let size = entries::place_at(places, first, i, 4);
    let Some(key) = entries::read_entry(body, start, size, w, slot) else {
        return RowRead::Refused(12);
    };
    let off = entries::offset_at(lengths, first, i + 1);
    if u64::MAX - off < key {
        return RowRead::Refused(12);
    }
    let at = off + key;
    match entries::valid_at(places, body, first, i + 1, at) {
        Validity::Valid => read_stored(tree, places, body, first, i + 1, at),
        Validity::Null => RowRead::Null,
        Validity::Outside => RowRead::Refused(12),
    }
}

// ---- by kind

// A number, or an entry of a dictionary.
fn read_integer(
    tree: &[u64],
    lengths: &[u64],
    places: &[u64],
    body: &[u8],
    first: u32,
    i: usize,
    code: u8,
    slot: u64,
) -> RowRead
    requires { (i + 1 < 2 ^ 32) × (1 ≤ code) × (code ≤ 10) }
    ensures { result ≡ fixed_read (was tree) (column (was lengths) (was places) [] (was body) first) i (code_number code) slot }
{
    if node_words::word(tree, i, 1) != 0 {
        return read_dictionary(
            tree,
            lengths,
            places,
            body,
            first,
            i,
            schema::formats::width_of(code),
            slot,
        );
    }
    let start = entries::place_at(places, first, i, 3);
    let size = entries::place_at(places, first, i, 4);
    read_number(body, start, size, code, slot)
}

// What slot `slot` of node i reads as, where the node is no union and has no run ends.
pub fn read_slot(
    tree: &[u64],
    lengths: &[u64],
    places: &[u64],
    buffers: &[u64],
    body: &[u8],
    first: u32,
    i: usize,
    slot: u64,
) -> RowRead
    requires { i + 1 < 2 ^ 32 }
    ensures { result ≡ slot_read (was tree) (column (was lengths) (was places) (was buffers) (was body) first) i slot }
{
    let code = code_word(tree, i);
    if schema::formats::is_fixed(code) {
        return read_integer(tree, lengths, places, body, first, i, code, slot);
    }
    if schema::formats::is_string(code) {
        return read_string(
            places,
            body,
            first,
            i,
            schema::formats::width_of(code),
            slot,
        );
    }
    if schema::formats::is_view(code) {
        return read_view(places, buffers, body, first, i, slot);
    }
    if schema::formats::is_list_view(code) {
        return read_list_view(
            places,
            body,
            first,
            i,
            schema::formats::width_of(code),
            slot,
        );
    }
    if schema::formats::is_list(code) {
        return read_list(
            lengths,
            places,
            body,
            first,
            i,
            schema::formats::width_of(code),
            slot,
        );
    }
    RowRead::Refused(10)
}
