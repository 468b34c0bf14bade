// Copies of a type that is one node of numbers: all is asked of that node alone, and its bytes are copied where the order stands.
ghost use Rattle.std.specs.Prelude.{◌≡◌, List, [], ◌∷◌, true, cond, ◌&&◌, ℕ, ◌+◌, ◌*◌, ◌<◌, ◌≤◌, ◌^◌, length, take, drop, ltb};
ghost use Rattle.clauses.specs.Slices.{was, left};
ghost use Rattle.columnar.specs.Test.{every};
ghost use Rattle.schema.specs.formats.Code.{is_fixed};
ghost use Rattle.walk.specs.State.{code_of, dictionary_of, rows, place};
ghost use Rattle.walk.specs.Log.{Did, put, apply_if, start_of};
ghost use Rattle.walk.specs.Leaves.{copy_mask};
ghost use Rattle.walk.specs.Copy.{Walk, copy_data};
ghost use Rattle.leaf_walk.specs.Join.{join};
ghost use Rattle.leaf_walk.specs.Walks.{Walks};
ghost use Rattle.plan.specs.parts.Parts.{copied, entry_size, in_room, part_within, part_holds, parts_within, parts_hold};
ghost use Rattle.plan.specs.grounds.Verdict.{verdict};
ghost use Rattle.refinement.specs.orders.Sound.{plan_sound, walkable};
ghost use Rattle.transform.specs.Answer.{CopiesAny, CopiesAt};
ghost use Rattle.transform.specs.leaf_rows.Leaf.{bits_in};
ghost use Rattle.transform.specs.numbers.Plan.{one_of_numbers, first_of_numbers};

use crate::{leaf_bits, leaf_counters};
use array_data::lent_tables;
use nested_rows::lookups;
use walk::plan_words;

// ---- the plan

// Whether the type is one node, of numbers without a dictionary.
pub fn is_numbers(plan: &[u64]) -> bool
    ensures { result ≡ one_of_numbers (was plan) }
{
    if plan::parts::node_count(plan) != 1 {
        return false;
    }
    if plan_words::end_of(plan, 0) != 1 {
        return false;
    }
    if plan_words::dictionary_of(plan, 0) != 0 {
        return false;
    }
    schema::formats::is_fixed(plan_words::code_of(plan, 0))
}

// Whether an order can be walked: where the plan is known to be sound, no node is asked.
pub fn is_walkable(plan: &[u64], m: usize, known: bool) -> bool
    requires { known ≡ true → plan_sound plan.now ≡ true }
    ensures { result ≡ walkable (was plan) m }
{
    if known {
        return m <= columns::CEILING;
    }
    sound::is_walkable(plan, m)
}

// The bytes of a number.
pub fn number_size(code: u8) -> u64
    requires { is_fixed code ≡ true }
    ensures { result ≡ entry_size code }
{
    match code {
        1 => 1,
        2 => 1,
        3 => 2,
        4 => 2,
        5 => 4,
        6 => 4,
        7 => 8,
        8 => 8,
        9 => 4,
        _ => 8,
    }
}

// ---- the parts

// Whether part p lies in the room.
fn in_room(parts: &[u64], m: usize, p: usize) -> bool
    requires { p < 4294967298 }
    ensures { result ≡ in_room (was parts) m p }
{
    let start = lent_tables::at_u64(parts, 2 * p);
    let size = lent_tables::at_u64(parts, 2 * p + 1);
    lent_tables::fits(start, size, m as u64)
}

// 14 where part p is not in the table or not in the room, and else 13 where it does not hold its bytes.
pub fn part_ground(parts: &[u64], m: usize, p: usize, holds: bool) -> u8
    requires { p < 4294967298 }
    ensures { result ≡ verdict (ltb (2 * p + 1) (length (was parts)) && in_room (was parts) m p) holds }
{
    if parts.len() <= 2 * p + 1 {
        return 14;
    }
    if !in_room(parts, m, p) {
        return 14;
    }
    if holds {
        return 0;
    }
    13
}

// The part of r numbers of w bytes at node i.
fn entries_ground(plan: &[u64], parts: &[u64], m: usize, i: usize, w: u64, r: u64) -> u8
    requires { (i < 32) × (is_fixed (code_of plan.now i) ≡ true) × (w ≡ entry_size (code_of plan.now i)) × (copied plan.now i ≡ true) }
    ensures { (counters : List ℕ) → rows counters i ≡ r → result ≡ verdict (part_within (was plan) (was parts) m i 1) (part_holds (was plan) counters (was parts) i 1) }
{
    let p = plan::parts::number_of(plan, i, 1);
    let size = lent_tables::at_u64(parts, 2 * p + 1);
    part_ground(parts, m, p, lent_tables::rows_fit(r, w as u8, size))
}

// The part of the validity of r rows of node i, where nulls are kept.
pub fn bits_ground(plan: &[u64], parts: &[u64], m: usize, i: usize, r: u64) -> u8
    requires { (i < 32) × (code_of plan.now i < 21) × (copied plan.now i ≡ true) }
    ensures { (counters : List ℕ) → rows counters i ≡ r → result ≡ verdict (part_within (was plan) (was parts) m i 0) (part_holds (was plan) counters (was parts) i 0) }
{
    if plan_words::keeps_of(plan, i) == 0 {
        return 0;
    }
    let p = plan::parts::number_of(plan, i, 0);
    let size = lent_tables::at_u64(parts, 2 * p + 1);
    part_ground(parts, m, p, lent_tables::bits_fit(r, 0, size))
}

// The parts of r rows of node i.
pub fn node_ground(plan: &[u64], parts: &[u64], m: usize, i: usize, w: u64, r: u64) -> u8
    requires { (i < 32) × (is_fixed (code_of plan.now i) ≡ true) × (w ≡ entry_size (code_of plan.now i)) × (copied plan.now i ≡ true) }
    ensures { (counters : List ℕ) → rows counters i ≡ r → result ≡ verdict (every (λ b. part_within (was plan) (was parts) m i b) 3) (every (λ b. part_holds (was plan) counters (was parts) i b) 3) }
{
    let entries = entries_ground(plan, parts, m, i, w, r);
    let bits = bits_ground(plan, parts, m, i, r);
    if bits < entries {
        return entries;
    }
    bits
}

// What the parts say to r rows.
pub fn room_ground(plan: &[u64], parts: &[u64], m: usize, w: u64, r: u64) -> u8
    requires { (first_of_numbers plan.now ≡ true) × (w ≡ entry_size (code_of plan.now 0)) }
    ensures { (counters : List ℕ) → rows counters 0 ≡ r → result ≡ cond (parts_within (was plan) (was parts) m) (cond (parts_hold (was plan) counters (was parts)) 0 13) 14 }
{
    node_ground(plan, parts, m, 0, w, r)
}

// ---- the order

// The validity of n slots, if nulls are kept.
fn put_validity(
    plan: &[u64],
    parts: &[u64],
    places: &[u64],
    body: &[u8],
    counters: &mut [u64],
    room: &mut [u8],
    first: usize,
    i: usize,
    slot: u64,
    n: u64,
)
    requires { (length counters.old ≡ 96) × (first < 2 ^ 32) × (i < 32) × (slot + n < 2 ^ 63) × (bits_in (join plan.now [] [] places.now body.now first 0) i slot n ≡ true) }
    ensures { (lengths : List ℕ) (source : ℕ) → Walks plan parts true (copy_mask (join (was plan) (was parts) lengths (was places) (was body) first source) i slot n) counters room 0 }
{
    if plan_words::keeps_of(plan, i) == 0 {
        return;
    }
    leaf_bits::put_kept_bits(plan, parts, places, body, counters, room, first, i, slot, n);
}

// n bytes of body from `from` on at byte o of node i's numbers, where they lie in the room.
fn put_bytes(
    plan: &[u64],
    parts: &[u64],
    room: &mut [u8],
    i: usize,
    o: u64,
    body: &[u8],
    from: usize,
    n: u64,
)
    requires { (i < 32) × (from + n ≤ length body.now) × (start_of plan.now parts.now i 1 + o + n ≤ length room.old) }
    ensures { room.new ≡ apply_if (was plan) (was parts) true (put i 1 o (take n (drop from (was body))) ∷ []) room.old }
{
    let start = lent_tables::at_u64(parts, 2 * plan_words::part_of(plan, i));
    number::copy::copy_bytes(room, (start + o) as usize, body, from, n as usize);
}

// The numbers of n slots of node i, which stand in the body from `at` on, behind p others.
fn put_numbers(
    plan: &[u64],
    parts: &[u64],
    body: &[u8],
    room: &mut [u8],
    i: usize,
    at: u64,
    p: u64,
    w: u64,
    slot: u64,
    n: u64,
)
    requires i_bound { (i < 32) × (is_fixed (code_of plan.now i) ≡ true) × (dictionary_of plan.now i ≡ 0) × (w ≡ entry_size (code_of plan.now i)) }
    requires n_in_bounds { (at + w * (slot + n) ≤ length body.now) × (start_of plan.now parts.now i 1 + p * w + w * n ≤ length room.old) }
    ensures { (lengths places counters : List ℕ) (first source : ℕ) (child : Walk) → let j = join (was plan) (was parts) lengths places (was body) first source in at ≡ place j i 3 → p ≡ rows counters i → Did (was plan) (was parts) true (copy_data j child (code_of (was plan) i) i slot n counters) room.old 0 counters room.new }
{
    let from = at + w * slot;
    let o = plan_words::scale(p, w);
    put_bytes(plan, parts, room, i, o, body, from as usize, w * n);
}

// n slots of the one node.
fn copy_slots(
    plan: &[u64],
    parts: &[u64],
    places: &[u64],
    body: &[u8],
    counters: &mut [u64],
    room: &mut [u8],
    first: usize,
    slot: u64,
    n: u64,
) -> u8
    requires counters_len { (length counters.old ≡ 96) × (first < 2 ^ 32) × (slot + n < 2 ^ 63) × (one_of_numbers plan.now ≡ true) }
    requires n_value { bits_in (join plan.now [] [] places.now body.now first 0) 0 slot n ≡ true }
    ensures { CopiesAt plan parts places body first 0 slot n counters room result }
{
    let w = number_size(plan_words::code_of(plan, 0));
    let at = lent_tables::place(places, first + 0, 3);
    if !leaf_walk::rows_in(body, at, w, slot, n) {
        return 12;
    }
    let p = lent_tables::at_u64(counters, 0);
    let r = plan_words::grow(p, n);
    let g = room_ground(plan, parts, room.len(), w, r);
    if g != 0 {
        return g;
    }
    put_validity(plan, parts, places, body, counters, room, first, 0, slot, n);
    put_numbers(plan, parts, body, room, 0, at, p, w, slot, n);
    leaf_counters::add_to(counters, 0, n);
    0
}

// The rows start .. start + n - 1 of a source whose first node is `first`.
pub fn copy_numbers(
    plan: &[u64],
    parts: &[u64],
    lengths: &[u64],
    places: &[u64],
    body: &[u8],
    counters: &mut [u64],
    room: &mut [u8],
    first: usize,
    start: u64,
    n: u64,
) -> u8
    requires { (length counters.old ≡ 96) × (first < 2 ^ 32) × (one_of_numbers plan.now ≡ true) }
    ensures { CopiesAny plan parts lengths places body first start n counters room result }
{
    let slot = lookups::slot_of(lengths, first, 0, start, n);
    if plan_words::FAR <= slot {
        return 12;
    }
    if !leaf_bits::bits_in(plan, places, body, first, 0, slot, n) {
        return 12;
    }
    copy_slots(plan, parts, places, body, counters, room, first, slot, n)
}
