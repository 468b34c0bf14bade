// The rules of a source whose kind is a union, a dictionary or a view array, row after row.
// Places are bytes of the lent body; the caller has added the array's offset to them.
ghost use Rattle.std.specs.Prelude.{◌≡◌, ℕ, ◌+◌, ◌*◌, ◌^◌, ◌<◌, ◌≤◌, min, ◌&&◌, length, if◌then◌else◌, slice_index};
ghost use Rattle.columnar.specs.Types.{half};
ghost use Rattle.columnar.specs.Test.{member};
ghost use Rattle.row_rules.specs.slots.Slots.{ids_declared, field_of, bound_of, positions_within, keys_below, valid_keys_below, lies_in, view_good, views_good, valid_views_good};

use array_data::lent_tables;
use number::Unsigned;
use utils::byte_view::ByteView;

// The first field with that id, or the number of fields where none has it.
pub fn field_of(ids: &[u8], id: u8) -> usize
    ensures { result ≡ field_of ids.now id }
{
    for i in 0..ids.len() {
        if ids[i] == id {
            return i;
        }
    }
    ids.len()
}

// Of each byte: 1 where it is one of ids, else 0.
fn declared(ids: &[u8]) -> [u8; 256]
    ensures { (c : ℕ) → c < 256 → slice_index result c ≡ (if member c ids.now then 1 else 0) }
{
    let mut table = [0u8; 256];
    for &id in ids {
        table[id as usize] = 1;
    }
    table
}

// Whether each of the n type ids at `at` is one of ids. Every id is looked up, so that several are at once.
pub fn ids_declared(body: &[u8], at: usize, n: usize, ids: &[u8]) -> bool
    requires { at + n ≤ length body.now }
    ensures { result ≡ ids_declared body.now at ids.now n }
{
    let table = declared(ids);
    let mut all = 1;
    for i in 0..n {
        let id = body[at + i] as usize;
        all &= table[id];
    }
    all != 0
}

// The length of field f, at most 2^31; 0 where lens has none.
fn field_bound(lens: &[u64], f: usize) -> u32
    ensures { result ≡ min (half 4) (slice_index lens.now f) }
{
    if lens.len() <= f {
        return 0;
    }
    let size = lens[f];
    if size < 2147483648 {
        size as u32
    } else {
        2147483648
    }
}

// Of each byte: what its positions must be below.
fn bounds(ids: &[u8], lens: &[u64]) -> [u32; 256]
    ensures { (c : ℕ) → c < 256 → slice_index result c ≡ bound_of ids.now lens.now c }
{
    let mut table = [0u32; 256];
    for i in (0..ids.len()).rev() {
        let id = ids[i] as usize;
        table[id] = field_bound(lens, i);
    }
    table
}

// Whether each of the n type ids at `at` is one of ids, and the positions at `too` lie within the fields of their ids.
pub fn dense_good(body: &[u8], at: usize, too: usize, n: usize, ids: &[u8], lens: &[u64]) -> bool
    requires { (at + n ≤ length body.now) × (too + 4 * n ≤ length body.now) }
    ensures { result ≡ ids_declared body.now at ids.now n && positions_within body.now at too ids.now lens.now n }
{
    let table = bounds(ids, lens);
    for i in 0..n {
        let p = u32::read(body, too + 4 * i);
        let id = body[at + i] as usize;
        if table[id] <= p {
            return false;
        }
    }
    true
}

// Whether each of the n keys at `at` is below bound: the largest of them is, which is found many at once.
fn largest_below<N: Unsigned>(body: &[u8], at: usize, n: usize, bound: u64) -> bool
    requires { at + N.SIZE * n ≤ length body.now }
    ensures { result ≡ keys_below N.SIZE body.now at bound n }
{
    if bound == 0 {
        return n == 0;
    }
    let mut top = N::truncate(0);
    for i in 0..n {
        let key = N::read(body, at + N::SIZE * i);
        if top.to_u64() < key.to_u64() {
            top = key;
        }
    }
    top.to_u64() < bound
}

// Whether each of the n keys at `at` is below bound.
pub fn keys_below<N: Unsigned>(body: &[u8], at: usize, n: usize, bound: u64) -> bool
    requires { at + N.SIZE * n ≤ length body.now }
    ensures { result ≡ keys_below N.SIZE body.now at bound n }
{
    if N::truncate(bound).to_u64() < bound {
        return true;
    }
    if N::SIZE < 8 {
        return largest_below::<N>(body, at, n, bound);
    }
    // The machine has no maximum of 8 bytes: the largest of these takes twice the time of a flag.
    let mut good = true;
    for i in 0..n {
        if bound <= N::read(body, at + N::SIZE * i).to_u64() {
            good = false;
        }
    }
    good
}

// The same of the keys whose validity bit is 1: bit a of those from the byte `from` on is the first key's.
pub fn valid_keys_below<N: Unsigned>(
    body: &[u8],
    at: usize,
    n: usize,
    bound: u64,
    from: usize,
    a: usize,
) -> bool
    requires { (at + N.SIZE * n ≤ length body.now) × (8 * from + a + n ≤ 8 * length body.now) × (a + n < 2 ^ 64) }
    ensures { result ≡ valid_keys_below N.SIZE body.now at bound from a n }
{
    for i in 0..n {
        if bound <= N::read(body, at + N::SIZE * i).to_u64() {
            if bits::get_bit(body, from, a + i) == 1 {
                return false;
            }
        }
    }
    true
}

// Whether the view's bytes lie in the data buffer of so many bytes at `start`, which lies in body, and start with the view's prefix.
fn lies_in(body: &[u8], start: u64, bytes: u64, v: ByteView) -> bool
    requires { 4 ≤ v.length }
    ensures { result ≡ lies_in body.now start bytes v }
{
    if !lent_tables::fits(start, bytes, body.len() as u64) {
        return false;
    }
    let from = start as usize;
    let size = bytes as usize;
    let offset = v.offset as usize;
    if size < offset + v.length as usize {
        return false;
    }
    v.prefix == u32::read(body, from + offset)
}

// Whether the view is good over the `count` data buffers whose places stand in `buffers` from number `first` on: start and bytes of each.
fn view_good(body: &[u8], buffers: &[u64], first: usize, count: usize, v: ByteView) -> bool
    requires { 2 * (first + count) ≤ length buffers.now }
    ensures { result ≡ view_good body.now buffers.now first count v }
{
    let length = v.length;
    if 2147483647 < length {
        return false;
    }
    if length <= utils::byte_view::MAX_INLINE_VIEW_LEN {
        return true;
    }
    let k = v.buffer_index as usize;
    if count <= k {
        return false;
    }
    let at = 2 * (first + k);
    lies_in(body, buffers[at], buffers[at + 1], v)
}

// Whether each of the n views at `at` is good.
pub fn views_good(
    body: &[u8],
    at: usize,
    n: usize,
    buffers: &[u64],
    first: usize,
    count: usize,
) -> bool
    requires { (at + 16 * n ≤ length body.now) × (2 * (first + count) ≤ length buffers.now) }
    ensures { result ≡ views_good body.now at buffers.now first count n }
{
    for i in 0..n {
        let v = utils::byte_view::from_bytes(body, at + 16 * i);
        if !view_good(body, buffers, first, count, v) {
            return false;
        }
    }
    true
}

// The same of the views whose validity bit is 1: bit a of those from the byte `from` on is the first view's.
pub fn valid_views_good(
    body: &[u8],
    at: usize,
    n: usize,
    buffers: &[u64],
    first: usize,
    count: usize,
    from: usize,
    a: usize,
) -> bool
    requires { (at + 16 * n ≤ length body.now) × (2 * (first + count) ≤ length buffers.now) × (8 * from + a + n ≤ 8 * length body.now) × (a + n < 2 ^ 64) }
    ensures { result ≡ valid_views_good body.now at buffers.now first count from a n }
{
    for i in 0..n {
        let bit = bits::get_bit(body, from, a + i);
        if bit == 1 {
            let view = utils::byte_view::from_bytes(body, at + 16 * i);
            if !view_good(body, buffers, first, count, view) {
                return false;
            }
        }
    }
    true
}
