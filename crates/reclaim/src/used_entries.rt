// The entries of a dictionary that the keys of rows use, in blocks of 512 entries on the stack, and the keys renumbered.

ghost use Rattle.std.specs.Prelude.{◌≡◌, true, cond, ℕ, ◌+◌, ◌*◌, ◌-◌, ◌^◌, ◌<◌, ◌≤◌, min, length, get_or, ltb};
ghost use Rattle.clauses.specs.Slices.{was, left};
ghost use Rattle.number.specs.Number.{encode, entry, splice};
ghost use Rattle.reclaim.specs.used_entries.Keys.{keys, KeyWidth, Within, slot_valid, used, rank, new_keys, Renumbers, slot_in, Head};

use number::Unsigned;

// How many entries a block has at most.
const BLOCK: u64 = 512;

// The key of w bytes at slot k of those at `at`.
pub fn key_at(body: &[u8], w: u64, at: u64, k: u64) -> u64
    requires key_width { KeyWidth w }
    requires k_in_bounds { at + w * (k + 1) ≤ length body.now }
    ensures { result ≡ entry w (was body) at k }
{
    let from = at + w * k;
    match w {
        1 => u8::read(body, from as usize) as u64,
        2 => u16::read(body, from as usize) as u64,
        4 => u32::read(body, from as usize) as u64,
        _ => u64::read(body, from as usize),
    }
}

// Whether slot k is valid.
fn is_valid(body: &[u8], masked: bool, mask: u64, k: u64) -> bool
    requires { masked ≡ true → 8 * mask + k < 8 * length body.now }
    ensures { result ≡ slot_valid (was body) masked mask k }
{
    if masked {
        return bits::get_bit(body, mask as usize, k as usize) == 1;
    }
    true
}

// Where the key of row r falls in the block of `count` entries from `base` on; 512 where the row is null or its key falls outside.
fn block_slot(
    body: &[u8],
    w: u64,
    at: u64,
    masked: bool,
    mask: u64,
    off: u64,
    n: u64,
    base: u64,
    count: u64,
    r: u64,
) -> usize
    requires { Within (keys body.now w at masked mask off n) × (r < n) × (count ≤ 512) }
    ensures { (result ≡ slot_in (keys (was body) w at masked mask off n) base count r) × (result ≤ 512) }
{
    let k = off + r;
    if !is_valid(body, masked, mask, k) {
        return 512;
    }
    let key = key_at(body, w, at, k);
    if key < base {
        return 512;
    }
    if count <= key - base {
        return 512;
    }
    (key - base) as usize
}

// Which of the `count` entries from `base` on are in use: 1 where one is. The last place takes what falls outside.
fn marks_of(
    body: &[u8],
    w: u64,
    at: u64,
    masked: bool,
    mask: u64,
    off: u64,
    n: u64,
    base: u64,
    count: u64,
) -> [u64; 513]
    requires { Within (keys body.now w at masked mask off n) × (count ≤ 512) }
    ensures { (j : ℕ) → j < count → get_or result j 0 ≡ cond (used (keys (was body) w at masked mask off n) (base + j)) 1 0 }
{
    let mut marks = [0u64; 513];
    for r in 0..n {
        let s = block_slot(body, w, at, masked, mask, off, n, base, count, r);
        marks[s] = 1;
    }
    marks
}

// The rank of each of the `count` entries from `base` on, and of the one behind them; `start` is the first one's.
pub fn ranks_of(
    body: &[u8],
    w: u64,
    at: u64,
    masked: bool,
    mask: u64,
    off: u64,
    n: u64,
    base: u64,
    count: u64,
    start: u64,
) -> [u64; 513]
    requires { Within (keys body.now w at masked mask off n) × (count ≤ 512) × (base + count < 2 ^ 64) × (start ≡ rank (keys body.now w at masked mask off n) base) }
    ensures { (j : ℕ) → j ≤ count → get_or result j 0 ≡ rank (keys (was body) w at masked mask off n) (base + j) }
{
    let marks = marks_of(body, w, at, masked, mask, off, n, base, count);
    let mut ranks = [0u64; 513];
    ranks[0] = start;
    for j in 0..count as usize {
        ranks[j + 1] = ranks[j] + marks[j];
    }
    ranks
}

// ---- the new keys

// The w lowest bytes of v at `at`.
pub fn write_number(room: &mut [u8], at: usize, w: u64, v: u64)
    requires w_in_bounds { at + w ≤ length room.old }
    requires key_width { KeyWidth w }
    ensures { room.new ≡ splice at (encode w v) room.old }
{
    match w {
        1 => u8::truncate(v).write(room, at),
        2 => u16::truncate(v).write(room, at),
        4 => u32::truncate(v).write(room, at),
        _ => v.write(room, at),
    }
}

// The rank at place s of a block's ranks as key number r of those of w bytes at `to`, if the place is one of the block's.
fn put_rank(room: &mut [u8], to: usize, w: u64, r: u64, ranks: &[u64; 513], s: usize)
    requires r_in_bounds { (to + w * (r + 1) ≤ length room.old) × (s ≤ 512) }
    requires key_width { KeyWidth w }
    ensures { room.new ≡ cond (ltb s 512) (splice (to + w * r) (encode w (get_or (was ranks) s 0)) room.old) room.old }
{
    if s < 512 {
        write_number(room, to + (w * r) as usize, w, ranks[s]);
    }
}

// The new keys of w bytes at `to` of the rows whose entry is one of the `count` from `base` on, over those of the entries before.
fn write_block(
    room: &mut [u8],
    to: usize,
    body: &[u8],
    w: u64,
    at: u64,
    masked: bool,
    mask: u64,
    off: u64,
    n: u64,
    base: u64,
    count: u64,
    ranks: &[u64; 513],
)
    requires within { Within (keys body.now w at masked mask off n) × (to + w * n ≤ length room.old) × (count ≤ 512) }
    requires by_index { (j : ℕ) → j < count → get_or ranks.now j 0 ≡ rank (keys body.now w at masked mask off n) (base + j) }
    ensures { Renumbers (keys (was body) w at masked mask off n) room to base (base + count) }
{
    for r in 0..n {
        let s = block_slot(body, w, at, masked, mask, off, n, base, count, r);
        put_rank(room, to, w, r, ranks, s);
    }
}

// The same; a loop for each width.
fn write_by(
    room: &mut [u8],
    to: usize,
    body: &[u8],
    w: u64,
    at: u64,
    masked: bool,
    mask: u64,
    off: u64,
    n: u64,
    base: u64,
    count: u64,
    ranks: &[u64; 513],
)
    requires within { Within (keys body.now w at masked mask off n) × (to + w * n ≤ length room.old) × (count ≤ 512) }
    requires by_index { (j : ℕ) → j < count → get_or ranks.now j 0 ≡ rank (keys body.now w at masked mask off n) (base + j) }
    ensures { Renumbers (keys (was body) w at masked mask off n) room to base (base + count) }
{
    match w {
        1 => write_block(
            room, to, body, 1, at, masked, mask, off, n, base, count, ranks,
        ),
        2 => write_block(
            room, to, body, 2, at, masked, mask, off, n, base, count, ranks,
        ),
        4 => write_block(
            room, to, body, 4, at, masked, mask, off, n, base, count, ranks,
        ),
        _ => write_block(
            room, to, body, 8, at, masked, mask, off, n, base, count, ranks,
        ),
    }
}

// How many of the entries from `base` on are in its block.
pub fn block_len(base: u64, entries: u64) -> u64
    requires { base < entries }
    ensures { (0 < result) × (result ≤ 512) × (base + result ≤ entries) × (result ≡ min (entries - base) 512) }
{
    (entries - base).min(BLOCK)
}

// How many entries are in the first block.
fn head_len(entries: u64) -> u64
    ensures { result ≡ min entries 512 }
{
    entries.min(BLOCK)
}

// The ranks of the first block of a dictionary with so many entries.
pub fn head_ranks(
    body: &[u8],
    w: u64,
    at: u64,
    masked: bool,
    mask: u64,
    off: u64,
    n: u64,
    entries: u64,
) -> [u64; 513]
    requires { Within (keys body.now w at masked mask off n) }
    ensures { Head (keys (was body) w at masked mask off n) entries result }
{
    let count = head_len(entries);
    ranks_of(body, w, at, masked, mask, off, n, 0, count, 0)
}

// The ranks of a block, of which the first is known.
pub fn block_ranks(
    head: &[u64; 513],
    body: &[u8],
    w: u64,
    at: u64,
    masked: bool,
    mask: u64,
    off: u64,
    n: u64,
    base: u64,
    count: u64,
    start: u64,
) -> [u64; 513]
    requires within { Within (keys body.now w at masked mask off n) × (count ≤ 512) × (base + count < 2 ^ 64) × (start ≡ rank (keys body.now w at masked mask off n) base) }
    requires head { Head (keys body.now w at masked mask off n) (base + count) head.now }
    ensures { (j : ℕ) → j ≤ count → get_or result j 0 ≡ rank (keys (was body) w at masked mask off n) (base + j) }
{
    if base == 0 {
        return *head;
    }
    ranks_of(body, w, at, masked, mask, off, n, base, count, start)
}

// THE NEW KEYS at `to`, of a dictionary with so many entries, block by block; the ranks of the first are given.
pub fn write_keys(
    room: &mut [u8],
    to: usize,
    head: &[u64; 513],
    body: &[u8],
    w: u64,
    at: u64,
    masked: bool,
    mask: u64,
    off: u64,
    n: u64,
    entries: u64,
)
    requires within { Within (keys body.now w at masked mask off n) × (to + w * n ≤ length room.old) × (entries < 2 ^ 63) }
    requires head { Head (keys body.now w at masked mask off n) entries head.now }
    ensures { room.new ≡ splice to (new_keys (keys (was body) w at masked mask off n) entries) room.old }
{
    number::copy::fill_zeros(room, to, (w * n) as usize);
    if entries <= BLOCK {
        write_by(
            room, to, body, w, at, masked, mask, off, n, 0, entries, head,
        );
        return;
    }
    let mut base: u64 = 0;
    let mut start: u64 = 0;
    while base < entries {
        let count = block_len(base, entries);
        let ranks = block_ranks(head, body, w, at, masked, mask, off, n, base, count, start);
        write_by(
            room, to, body, w, at, masked, mask, off, n, base, count, &ranks,
        );
        start = ranks[count as usize];
        base += count;
    }
}
