// The plan and the counters of a join as numbers, and where a write goes.
// A walk that only tries makes no write; nor is a write made that would leave the room.
ghost use Rattle.std.specs.Prelude.{◌≡◌, ◌+◌, ◌*◌, ◌<◌, ◌≤◌, ◌^◌, get_or};
ghost use Rattle.walk.specs.State.{code_of, dictionary_of, end_of, id_of, nullable_of, keeps_of, part_of, base_of, rows, bytes, grown, add_rows, add_nulls, set_bytes, scaled};
ghost use Rattle.walk.specs.Log.{start_of};
ghost use Rattle.walk.specs.plan_words.Target.{target_of, mask_target_of};

use array_data::lent_tables;

// A plan: eight words a node, a base of keys or data buffers for each node of each source, and five numbers of the whole.
pub const WORDS: usize = 872;
// Where the bases stand, and those numbers: sources, nodes, parts, whether null orders one after the other are one run, the subtree that is kept.
pub const BASES: usize = 352;

pub const SOURCE_COUNT: usize = 864;

pub const NODE_COUNT: usize = 865;

pub const PART_COUNT: usize = 866;

pub const GAPS: usize = 867;

pub const KEPT: usize = 868;
// Three counters a node: rows, nulls and bytes.
pub const COUNTERS: usize = 96;
// No slot of a column: offset and length together are below it.
pub const FAR: u64 = 9223372036854775808;

// The code of node i's format.
pub fn code_of(plan: &[u64], i: usize) -> u8
    requires { i < 32 }
    ensures { result ≡ code_of plan.now i }
{
    (lent_tables::at_u64(plan, 8 * i) % 256) as u8
}

pub fn dictionary_of(plan: &[u64], i: usize) -> u64
    requires { i < 32 }
    ensures { result ≡ dictionary_of plan.now i }
{
    lent_tables::at_u64(plan, 8 * i + 1)
}

// Where node i's subtree ends, at most 32.
pub fn end_of(plan: &[u64], i: usize) -> usize
    requires { i < 32 }
    ensures value { result ≡ end_of plan.now i }
    ensures upper_bound { result ≤ 32 }
{
    lent_tables::at_u64(plan, 8 * i + 2).min(32) as usize
}

// The id that node i has as the child of a union.
pub fn id_of(plan: &[u64], i: usize) -> u8
    requires { i < 32 }
    ensures { result ≡ id_of plan.now i }
{
    (lent_tables::at_u64(plan, 8 * i + 3) % 256) as u8
}

pub fn nullable_of(plan: &[u64], i: usize) -> u64
    requires { i < 32 }
    ensures { result ≡ nullable_of plan.now i }
{
    lent_tables::at_u64(plan, 8 * i + 4)
}

// 0 where node i keeps no nulls.
pub fn keeps_of(plan: &[u64], i: usize) -> u64
    requires { i < 32 }
    ensures { result ≡ keeps_of plan.now i }
{
    lent_tables::at_u64(plan, 8 * i + 5)
}

// The part of node i's first buffer.
pub fn part_of(plan: &[u64], i: usize) -> usize
    requires { i < 32 }
    ensures value { result ≡ part_of plan.now i }
    ensures upper_bound { result < 4294967296 }
{
    (lent_tables::at_u64(plan, 8 * i + 6) % 4294967296) as usize
}

// What is added to source s's keys or buffer numbers at node i.
pub fn base_of(plan: &[u64], s: usize, i: usize) -> u64
    requires { (s < 4294967296) × (i < 32) }
    ensures { result ≡ base_of plan.now s i }
{
    lent_tables::at_u64(plan, BASES + (32 * s + i))
}

pub fn rows_of(counters: &[u64; COUNTERS], i: usize) -> u64
    requires { i < 32 }
    ensures { result ≡ rows counters.now i }
{
    counters[3 * i]
}

pub fn bytes_of(counters: &[u64; COUNTERS], i: usize) -> u64
    requires { i < 32 }
    ensures { result ≡ bytes counters.now i }
{
    counters[3 * i + 2]
}

// A counter n higher; it stays at the largest number.
pub fn grow(v: u64, n: u64) -> u64
    ensures { result ≡ grown v n }
{
    v.saturating_add(n)
}

// n rows more at node i.
pub fn add_rows(counters: &mut [u64; COUNTERS], i: usize, n: u64)
    requires { i < 32 }
    ensures { counters.new ≡ add_rows i n counters.old }
{
    counters[3 * i] = grow(counters[3 * i], n);
}

// n nulls more at node i.
pub fn add_nulls(counters: &mut [u64; COUNTERS], i: usize, n: u64)
    requires { i < 32 }
    ensures { counters.new ≡ add_nulls i n counters.old }
{
    counters[3 * i + 1] = grow(counters[3 * i + 1], n);
}

// The bytes of node i's data.
pub fn set_bytes(counters: &mut [u64; COUNTERS], i: usize, n: u64)
    requires { i < 32 }
    ensures { counters.new ≡ set_bytes i n counters.old }
{
    counters[3 * i + 2] = n;
}

// The bytes of r entries of w bytes; it stays at the largest number.
pub fn scale(r: u64, w: u64) -> u64
    requires { (1 ≤ w) × (w ≤ 16) }
    ensures { result ≡ scaled r w }
{
    r.saturating_mul(w)
}

// Where the part of buffer b of node i starts; buffer 0 is the validity.
fn start_of(plan: &[u64], parts: &[u64], i: usize, b: usize) -> u64
    requires { (i < 32) × (b < 3) }
    ensures { result ≡ start_of plan.now parts.now i b }
{
    let p = part_of(plan, i) + b;
    if p == 0 {
        return lent_tables::at_u64(parts, 0);
    }
    lent_tables::at_u64(parts, 2 * (p - 1))
}

// Where n bytes from byte o of buffer b of node i on are written in a room of m bytes, if they are.
pub fn target(
    plan: &[u64],
    parts: &[u64],
    m: usize,
    write: bool,
    i: usize,
    b: usize,
    o: u64,
    n: u64,
) -> Option<usize>
    requires { (i < 32) × (b < 3) }
    ensures { result ≡ target_of plan.now parts.now m write i b o n }
{
    if !write {
        return None;
    }
    let start = start_of(plan, parts, i, b);
    if !lent_tables::fits_behind(start, o, n, m as u64) {
        return None;
    }
    let at = start + o;
    Some(at as usize)
}

// The validity of node i, where n bits from its bit p on are written in a room of m bytes, if they are.
pub fn mask_target(
    plan: &[u64],
    parts: &[u64],
    m: usize,
    write: bool,
    i: usize,
    p: u64,
    n: u64,
) -> Option<usize>
    requires { i < 32 }
    ensures { result ≡ mask_target_of plan.now parts.now m write i p n }
{
    if !write {
        return None;
    }
    let start = start_of(plan, parts, i, 0);
    if !lent_tables::bits_fit_behind(start, p, n, m as u64) {
        return None;
    }
    Some(start as usize)
}
