// The parts of a destination in the lent room: which there are, whether each holds its bytes, and whether they lie well.
// Every function reads the plan and the parts through getters that answer 0 past a table's end, and is right whatever they hold.
ghost use Rattle.std.specs.Prelude.{◌≡◌, ◌+◌, ◌*◌, ◌≤◌, ◌<◌, ◌/◌, leb};
ghost use Rattle.clauses.specs.Slices.{was};
ghost use Rattle.columnar.specs.Test.{every};
ghost use Rattle.plan.specs.parts.Parts.{nodes_of, buffer_count, copied, validity_parts, buffer_parts, part_count, has_part, parts_before, part_total, part_word, number_of, part_at, entry_size, needed_by, part_holds, parts_hold, part_within, parts_within};

use array_data::lent_tables;
use walk::plan_words;

// The node and the buffer of a part; buffer 0 is the validity.
#[derive(Clone, Copy)]
pub struct Spot {
    pub node: usize,
    pub buffer: usize,
}
// How many buffers have a part by code, from code 0 on.
const BUFFERS: [u8; 24] = [
    0, // none
    1, // c
    1, // C
    1, // s
    1, // S
    1, // i
    1, // I
    1, // l
    1, // L
    1, // f
    1, // g
    2, // z
    2, // u
    2, // Z
    2, // U
    1, // vz
    1, // vu
    2, // +vl
    2, // +vL
    1, // +l
    1, // +L
    1, // +us:
    2, // +ud:
    0, // +r
];
// ---- which parts there are

// How many nodes the type has, at most 32.
pub fn node_count(plan: &[u64]) -> usize
    ensures value { result ≡ nodes_of (was plan) }
    ensures upper_bound { result ≤ 32 }
{
    lent_tables::at_u64(plan, plan_words::NODE_COUNT).min(32) as usize
}

// How many buffers of a type have a part.
pub fn buffer_count(code: u8) -> u8
    ensures { result ≡ buffer_count code }
{
    let k = code as usize;
    if k < 24 { BUFFERS[k] } else { 0 }
}

// Whether node i is copied: the values of a dictionary are, if it is joined.
pub fn is_copied(plan: &[u64], i: usize) -> bool
    requires { i < 32 }
    ensures { result ≡ copied (was plan) i }
{
    if i == 0 {
        return true;
    }
    if plan_words::dictionary_of(plan, i - 1) == 0 {
        return true;
    }
    lent_tables::at_u64(plan, 8 * (i - 1) + 7) == 1
}

// 1 if node i has a part for its validity and else 0.
fn validity_parts(plan: &[u64], i: usize) -> usize
    requires { i < 32 }
    ensures value { result ≡ validity_parts (was plan) i }
    ensures upper_bound { result ≤ 1 }
{
    if !is_copied(plan, i) {
        return 0;
    }
    if plan_words::keeps_of(plan, i) == 0 {
        return 0;
    }
    (plan_words::code_of(plan, i) < 21) as usize
}

// How many buffers of node i have a part.
fn buffer_parts(plan: &[u64], i: usize) -> usize
    requires { i < 32 }
    ensures value { result ≡ buffer_parts (was plan) i }
    ensures upper_bound { result ≤ 2 }
{
    if !is_copied(plan, i) {
        return 0;
    }
    buffer_count(plan_words::code_of(plan, i)) as usize
}

// How many parts node i has.
fn part_count(plan: &[u64], i: usize) -> usize
    requires { i < 32 }
    ensures value { result ≡ part_count (was plan) i }
    ensures upper_bound { result ≤ 3 }
{
    validity_parts(plan, i) + buffer_parts(plan, i)
}

// Whether buffer b of node i has a part.
pub fn has_part(plan: &[u64], i: usize, b: usize) -> bool
    requires { i < 32 }
    ensures { result ≡ has_part (was plan) i b }
{
    if b == 0 {
        return validity_parts(plan, i) == 1;
    }
    b <= buffer_parts(plan, i)
}

// How many parts the nodes before node i have.
pub fn parts_before(plan: &[u64], i: usize) -> usize
    requires { i ≤ 32 }
    ensures value { result ≡ parts_before (was plan) i }
    ensures upper_bound { result ≤ 96 }
{
    let mut sum: usize = 0;
    for k in 0..i {
        sum += part_count(plan, k);
    }
    sum
}

// How many parts there are.
pub fn part_total(plan: &[u64]) -> usize
    ensures value { result ≡ part_total (was plan) }
    ensures upper_bound { result ≤ 96 }
{
    parts_before(plan, node_count(plan))
}

// The part of node i's first buffer, as the opening writes it into the plan.
pub fn part_word(plan: &[u64], i: usize) -> u64
    requires { i < 32 }
    ensures { result ≡ part_word (was plan) i }
{
    (parts_before(plan, i) + validity_parts(plan, i)) as u64
}

// The node and the buffer of part p, if there is one.
pub fn part_at(plan: &[u64], p: usize) -> Option<Spot>
    ensures { result ≡ part_at (was plan) p }
{
    let n = node_count(plan);
    let mut left = p;
    for i in 0..n {
        let count = part_count(plan, i);
        if left < count {
            return Some(Spot {
                node: i,
                buffer: left + 1 - validity_parts(plan, i),
            });
        }
        left -= count;
    }
    None
}

// The part of buffer b of node i, by the plan.
pub fn number_of(plan: &[u64], i: usize, b: usize) -> usize
    requires { (i < 32) × (b < 3) }
    ensures value { result ≡ number_of (was plan) i b }
    ensures upper_bound { result < 4294967298 }
{
    (plan_words::part_of(plan, i) + b).saturating_sub(1)
}

// The bytes of an entry of the first buffer.
pub fn entry_size(code: u8) -> u8
    ensures { result ≡ entry_size code }
{
    if schema::formats::is_view(code) {
        return 16;
    }
    if schema::formats::is_union(code) {
        return 1;
    }
    schema::formats::width_of(code)
}

// So many offsets of at most 255 bytes each have fewer than 2^64 bytes.
const FEW: u64 = 72057594037927935;

// Whether the offsets of r rows, one more than rows, fit into a size; no sum and no product is made.
fn offsets_fit(r: u64, w: u8, size: u64) -> bool
    ensures { result ≡ leb ((r + 1) * w) size }
{
    if r < FEW {
        return (r + 1) * (w as u64) <= size;
    }
    if w == 0 {
        return true;
    }
    r < size / (w as u64)
}

// Whether the bits of r rows fit into a size.
pub fn bits_fit(r: u64, size: u64) -> bool
    ensures { result ≡ leb ((r + 7) / 8) size }
{
    lent_tables::bits_fit(r, 0, size)
}

// Whether the first buffer of r rows fits into a size.
pub fn first_fits(code: u8, r: u64, n: u64, size: u64) -> bool
    ensures { result ≡ leb (needed_by code r n 1) size }
{
    if schema::formats::is_string(code) | schema::formats::is_list(code) {
        return offsets_fit(r, schema::formats::width_of(code), size);
    }
    lent_tables::rows_fit(r, entry_size(code), size)
}

// Whether the second buffer of r rows with n bytes of data fits into a size.
pub fn second_fits(code: u8, r: u64, n: u64, size: u64) -> bool
    ensures { result ≡ leb (needed_by code r n 2) size }
{
    if schema::formats::is_string(code) {
        return n <= size;
    }
    if schema::formats::is_list_view(code) {
        return lent_tables::rows_fit(r, schema::formats::width_of(code), size);
    }
    lent_tables::rows_fit(r, 4, size)
}

// Whether buffer b of r rows with n bytes of data fits into a size.
fn fits(code: u8, r: u64, n: u64, b: usize, size: u64) -> bool
    requires { b < 3 }
    ensures { result ≡ leb (needed_by code r n b) size }
{
    if b == 0 {
        return bits_fit(r, size);
    }
    if b == 1 {
        return first_fits(code, r, n, size);
    }
    second_fits(code, r, n, size)
}

// Whether buffer b of node i has no part, or one that holds its bytes.
fn part_holds(
    plan: &[u64],
    counters: &[u64; plan_words::COUNTERS],
    parts: &[u64],
    i: usize,
    b: usize,
) -> bool
    requires { (i < 32) × (b < 3) }
    ensures { result ≡ part_holds (was plan) (was counters) (was parts) i b }
{
    if !has_part(plan, i, b) {
        return true;
    }
    let size = lent_tables::at_u64(parts, 2 * number_of(plan, i, b) + 1);
    let code = plan_words::code_of(plan, i);
    let r = plan_words::rows_of(counters, i);
    let n = plan_words::bytes_of(counters, i);
    fits(code, r, n, b, size)
}

// Whether every part of node i holds its bytes.
fn node_holds(plan: &[u64], counters: &[u64; plan_words::COUNTERS], parts: &[u64], i: usize) -> bool
    requires { i < 32 }
    ensures { result ≡ every (λ b. part_holds (was plan) (was counters) (was parts) i b) 3 }
{
    let validity = part_holds(plan, counters, parts, i, 0);
    let first = part_holds(plan, counters, parts, i, 1);
    let second = part_holds(plan, counters, parts, i, 2);
    validity & first & second
}

// Whether every part of the first n nodes holds its bytes.
pub fn nodes_hold(
    plan: &[u64],
    n: usize,
    counters: &[u64; plan_words::COUNTERS],
    parts: &[u64],
) -> bool
    requires { n ≤ 32 }
    ensures { result ≡ every (λ i. every (λ b. part_holds (was plan) (was counters) (was parts) i b) 3) n }
{
    for i in 0..n {
        if !node_holds(plan, counters, parts, i) {
            return false;
        }
    }
    true
}

// Whether every part holds its bytes: ground 13 where not.
pub fn parts_hold(plan: &[u64], counters: &[u64; plan_words::COUNTERS], parts: &[u64]) -> bool
    ensures { result ≡ parts_hold (was plan) (was counters) (was parts) }
{
    nodes_hold(plan, node_count(plan), counters, parts)
}

// Whether buffer b of node i has no part, or one that is in the table and lies in the room.
fn part_within(plan: &[u64], parts: &[u64], m: usize, i: usize, b: usize) -> bool
    requires { (i < 32) × (b < 3) }
    ensures { result ≡ part_within (was plan) (was parts) m i b }
{
    if !has_part(plan, i, b) {
        return true;
    }
    let p = number_of(plan, i, b);
    if parts.len() <= 2 * p + 1 {
        return false;
    }
    crate::placed::in_room(parts, m, p)
}

// Whether every part of node i is in the table and lies in the room.
fn node_within(plan: &[u64], parts: &[u64], m: usize, i: usize) -> bool
    requires { i < 32 }
    ensures { result ≡ every (λ b. part_within (was plan) (was parts) m i b) 3 }
{
    let validity = part_within(plan, parts, m, i, 0);
    let first = part_within(plan, parts, m, i, 1);
    let second = part_within(plan, parts, m, i, 2);
    validity & first & second
}

// Whether every part is in the table and lies in the room: ground 14 where not, at an order.
pub fn parts_within(plan: &[u64], parts: &[u64], m: usize) -> bool
    ensures { result ≡ parts_within (was plan) (was parts) m }
{
    let n = node_count(plan);
    for i in 0..n {
        if !node_within(plan, parts, m, i) {
            return false;
        }
    }
    true
}
