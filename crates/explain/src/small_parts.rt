// 13: the first part that cannot hold its bytes, in the parts' order, with the bytes that are due in it. Nothing is written.
// The rows that an order comes to are r + n: r before it, and n that are ordered; a counter stays at the largest number of 64 bits.
ghost use Rattle.std.specs.Prelude.{◌≡◌, List, ℕ, ◌+◌, ◌*◌, ◌/◌, ◌<◌, min, max};
ghost use Rattle.clauses.specs.Slices.{was};
ghost use Rattle.walk.specs.State.{top};
ghost use Rattle.plan.specs.parts.Parts.{needed_by, size_of, part_holds};
ghost use Rattle.explain.specs.stops.Why.{nothing};
ghost use Rattle.explain.specs.stops.Parts.{bytes_due, why_part, why_parts};
ghost use Rattle.explain.specs.Sizes.{SmallPart, SmallParts};

use crate::stops::Why;
use array_data::lent_tables;
use walk::plan_words;

const TOO_SMALL: u8 = 13;

// ---- bytes

// r entries of w bytes, or the largest number of 64 bits.
fn times(r: u64, w: u8) -> u64
    ensures { result ≡ min (r * w) top }
{
    r.saturating_mul(w as u64)
}

// One entry of w bytes more than r, or the largest number of 64 bits.
fn times_more(r: u64, w: u8) -> u64
    ensures { result ≡ min ((r + 1) * w) top }
{
    times(r, w).saturating_add(w as u64)
}

// The bytes of r + n bits.
fn bits(r: u64, n: u64) -> u64
    ensures { result ≡ min ((r + n + 7) / 8) top }
{
    r / 8 + n / 8 + (r % 8 + n % 8 + 7) / 8
}

// The first buffer of r rows, or the largest number of 64 bits.
fn first_bytes(code: u8, r: u64, n: u64) -> u64
    ensures { result ≡ min (needed_by code r n 1) top }
{
    if schema::formats::is_string(code) | schema::formats::is_list(code) {
        return times_more(r, schema::formats::width_of(code));
    }
    times(r, plan::parts::entry_size(code))
}

// The second buffer of r rows with n bytes of data, or the largest number of 64 bits.
fn second_bytes(code: u8, r: u64, n: u64) -> u64
    ensures { result ≡ min (needed_by code r n 2) top }
{
    if schema::formats::is_string(code) {
        return n;
    }
    if schema::formats::is_list_view(code) {
        return times(r, schema::formats::width_of(code));
    }
    times(r, 4)
}

// Buffer b of r rows with n bytes of data, or the largest number of 64 bits.
fn buffer_bytes(code: u8, r: u64, n: u64, b: usize) -> u64
    requires { b < 3 }
    ensures { result ≡ min (needed_by code r n b) top }
{
    if b == 0 {
        return bits(r, 0);
    }
    if b == 1 {
        return first_bytes(code, r, n);
    }
    second_bytes(code, r, n)
}

// ---- parts

// Buffer b of node 0, whose rows are r + n or, where that is more, those of its counter.
fn root_bytes(code: u8, rows: u64, len: u64, b: usize, r: u64, n: u64) -> u64
    requires { b < 3 }
    ensures { result ≡ min (needed_by code (max (r + n) rows) len b) top }
{
    let sum = plan_words::grow(r, n);
    if sum < rows {
        return buffer_bytes(code, rows, len, b);
    }
    if b == 0 {
        return bits(r, n);
    }
    buffer_bytes(code, sum, len, b)
}

// The bytes due in buffer b of node i.
fn bytes_due(
    plan: &[u64],
    counters: &[u64; plan_words::COUNTERS],
    i: usize,
    b: usize,
    r: u64,
    n: u64,
) -> u64
    requires { (i < 32) × (b < 3) }
    ensures { (parts : List ℕ) → result ≡ min (bytes_due (was plan) (was counters) parts (r + n) i b) top }
{
    let code = plan_words::code_of(plan, i);
    let rows = plan_words::rows_of(counters, i);
    let len = plan_words::bytes_of(counters, i);
    if i == 0 {
        return root_bytes(code, rows, len, b, r, n);
    }
    buffer_bytes(code, rows, len, b)
}

// The bytes of the part of buffer b of node i.
fn size_of(plan: &[u64], parts: &[u64], i: usize, b: usize) -> u64
    requires { (i < 32) × (b < 3) }
    ensures { result ≡ size_of (was plan) (was parts) i b }
{
    lent_tables::at_u64(parts, 2 * plan::parts::number_of(plan, i, b) + 1)
}

// Whether buffer b of node i has no part, or one that holds its bytes.
fn part_holds(
    plan: &[u64],
    counters: &[u64; plan_words::COUNTERS],
    parts: &[u64],
    i: usize,
    b: usize,
) -> bool
    requires { (i < 32) × (b < 3) × SmallPart plan.now parts.now i b }
    ensures { result ≡ part_holds (was plan) (was counters) (was parts) i b }
{
    if !plan::parts::has_part(plan, i, b) {
        return true;
    }
    let code = plan_words::code_of(plan, i);
    let rows = plan_words::rows_of(counters, i);
    let len = plan_words::bytes_of(counters, i);
    buffer_bytes(code, rows, len, b) <= size_of(plan, parts, i, b)
}

// What buffer b of node i says.
fn why_part(
    plan: &[u64],
    counters: &[u64; plan_words::COUNTERS],
    parts: &[u64],
    i: usize,
    b: usize,
    r: u64,
    n: u64,
) -> Why
    requires { (i < 32) × (b < 3) × SmallPart plan.now parts.now i b }
    ensures { result ≡ why_part (was plan) (was counters) (was parts) (r + n) i b nothing }
{
    if part_holds(plan, counters, parts, i, b) {
        return crate::stop_walks::plain(0);
    }
    Why {
        refusal: TOO_SMALL,
        node: i,
        row: 0,
        needed: bytes_due(plan, counters, i, b, r, n),
        allowed: size_of(plan, parts, i, b),
    }
}

// What the parts of node i say: its validity, then its buffers.
fn why_node(
    plan: &[u64],
    counters: &[u64; plan_words::COUNTERS],
    parts: &[u64],
    i: usize,
    r: u64,
    n: u64,
) -> Why
    requires { (i < 32) × ((b : ℕ) → b < 3 → SmallPart plan.now parts.now i b) }
    ensures { let part = why_part (was plan) (was counters) (was parts) (r + n) i in result ≡ part 0 (part 1 (part 2 nothing)) }
{
    let validity = why_part(plan, counters, parts, i, 0, r, n);
    if validity.refusal != 0 {
        return validity;
    }
    let first = why_part(plan, counters, parts, i, 1, r, n);
    if first.refusal != 0 {
        return first;
    }
    why_part(plan, counters, parts, i, 2, r, n)
}

// What the first part says that cannot hold its bytes.
pub fn why_parts(
    plan: &[u64],
    counters: &[u64; plan_words::COUNTERS],
    parts: &[u64],
    r: u64,
    n: u64,
) -> Why
    requires { SmallParts plan.now parts.now }
    ensures { result ≡ why_parts (was plan) (was counters) (was parts) (r + n) }
{
    let nodes = plan::parts::node_count(plan);
    for i in 0..nodes {
        let w = why_node(plan, counters, parts, i, r, n);
        if w.refusal != 0 {
            return w;
        }
    }
    crate::stop_walks::plain(0)
}
