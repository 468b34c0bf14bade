// Copies of a list of numbers: whether one is refused is known before anything is written, so that it is walked once and no counters are copied.
ghost use Rattle.std.specs.Prelude.{◌≡◌, List, [], true, cond, ℕ, ◌+◌, ◌<◌, ◌^◌, length};
ghost use Rattle.clauses.specs.Slices.{was};
ghost use Rattle.columnar.specs.Test.{every};
ghost use Rattle.utils.specs.Extension.{extended};
ghost use Rattle.utils.specs.declared.Extended.TheVariants.{Fits};
ghost use Rattle.walk.specs.State.{rows, slot_of};
ghost use Rattle.walk.specs.Copy.{copy_walk};
ghost use Rattle.leaf_walk.specs.Join.{join};
ghost use Rattle.leaf_walk.specs.Walks.{lent_join, Walks};
ghost use Rattle.plan.specs.parts.Parts.{part_within, part_holds, parts_within, parts_hold};
ghost use Rattle.plan.specs.grounds.Verdict.{verdict};
ghost use Rattle.transform.specs.Answer.{lent, Settles, CopiesAny};
ghost use Rattle.transform.specs.leaf_rows.Leaf.{bits_in};
ghost use Rattle.transform.specs.list_rows.Stretch.{RowsIn, ItemsIn, Reaches};
ghost use Rattle.transform.specs.numbers.Plan.{list_of_numbers};

use crate::{leaf_bits, leaf_counters, numbers};
use array_data::lent_tables;
use leaf_walk::variable_size;
use nested_rows::lookups;
use walk::plan_words;

// ---- the parts

// The part of the offsets of r rows.
fn offsets_ground(plan: &[u64], parts: &[u64], m: usize, r: u64) -> u8
    requires { list_of_numbers plan.now ≡ true }
    ensures { (counters : List ℕ) → rows counters 0 ≡ r → result ≡ verdict (part_within (was plan) (was parts) m 0 1) (part_holds (was plan) counters (was parts) 0 1) }
{
    let p = plan::parts::number_of(plan, 0, 1);
    let size = lent_tables::at_u64(parts, 2 * p + 1);
    let holds = plan::parts::first_fits(plan_words::code_of(plan, 0), r, 0, size);
    numbers::part_ground(parts, m, p, holds)
}

// The parts of r rows of the list itself.
fn list_ground(plan: &[u64], parts: &[u64], m: usize, r: u64) -> u8
    requires { list_of_numbers plan.now ≡ true }
    ensures { (counters : List ℕ) → rows counters 0 ≡ r → result ≡ verdict (every (λ b. part_within (was plan) (was parts) m 0 b) 3) (every (λ b. part_holds (was plan) counters (was parts) 0 b) 3) }
{
    let offsets = offsets_ground(plan, parts, m, r);
    let bits = numbers::bits_ground(plan, parts, m, 0, r);
    if bits < offsets {
        return offsets;
    }
    bits
}

// What the parts say to r rows of the list and so many items.
pub fn room_ground(plan: &[u64], parts: &[u64], m: usize, r: u64, items: u64) -> u8
    requires { list_of_numbers plan.now ≡ true }
    ensures { (counters : List ℕ) → rows counters 0 ≡ r → rows counters 1 ≡ items → result ≡ cond (parts_within (was plan) (was parts) m) (cond (parts_hold (was plan) counters (was parts)) 0 13) 14 }
{
    let list = list_ground(plan, parts, m, r);
    let w = numbers::number_size(plan_words::code_of(plan, 1));
    let g = numbers::node_ground(plan, parts, m, 1, w, items);
    if g < list {
        return list;
    }
    g
}

// ---- the writes

// k items of v bytes from the slot `inner` on.
fn put_items(
    plan: &[u64],
    parts: &[u64],
    places: &[u64],
    body: &[u8],
    counters: &mut [u64],
    room: &mut [u8],
    first: usize,
    v: u64,
    inner: u64,
    k: u64,
)
    requires counters_len { (length counters.old ≡ 96) × (first < 2 ^ 32) × (list_of_numbers plan.now ≡ true) }
    requires items_in { ItemsIn (join plan.now [] [] places.now body.now first 0) v inner k }
    ensures { (lengths : List ℕ) (source lead : ℕ) → let j = join (was plan) (was parts) lengths (was places) (was body) first source in inner ≡ slot_of j 1 lead k → Walks plan parts true (copy_walk j 7 1 lead k) counters room 0 }
{
    let from = lent_tables::place(places, first + 1, 3) + v * inner;
    leaf_bits::put_bits(
        plan, parts, places, body, counters, room, first, 1, inner, k,
    );
    let o = plan_words::scale(lent_tables::at_u64(counters, 3), v);
    room_writes::put_copy(plan, parts, room, true, 1, 1, o, body, from as usize, v * k);
    leaf_counters::add_to(counters, 3, k);
}

// n slots of the list, whose offsets of w bytes stand from `from` on, and the items that they reach.
fn put_rows(
    plan: &[u64],
    parts: &[u64],
    places: &[u64],
    body: &[u8],
    counters: &mut [u64],
    room: &mut [u8],
    first: usize,
    w: u64,
    from: usize,
    slot: u64,
    n: u64,
    v: u64,
    inner: u64,
    k: u64,
)
    requires counters_len { (length counters.old ≡ 96) × (first < 2 ^ 32) × (list_of_numbers plan.now ≡ true) × (n ≡ 0 → ⊥) }
    requires rows_in_lem { RowsIn (join plan.now [] [] places.now body.now first 0) w from slot n }
    requires items_in { ItemsIn (join plan.now [] [] places.now body.now first 0) v inner k }
    ensures { (lengths : List ℕ) (source start last lead : ℕ) → let j = join (was plan) (was parts) lengths (was places) (was body) first source in slot ≡ slot_of j 0 start n → Reaches j w from n counters.old inner k last lead → Walks plan parts true (copy_walk j 8 0 start n) counters room 0 }
{
    let old = lent_tables::at_u64(counters, 3);
    leaf_bits::put_bits(plan, parts, places, body, counters, room, first, 0, slot, n);
    let o = plan_words::scale(plan_words::grow(lent_tables::at_u64(counters, 0), 1), w);
    room_writes::variable_size::put_offsets(
        plan, parts, room, true, 0, 1, o, w, body, from, n, old,
    );
    put_items(
        plan, parts, places, body, counters, room, first, v, inner, k,
    );
    leaf_counters::add_to(counters, 0, n);
}

// ---- the order

// The same where the parts take it.
fn write_rows(
    plan: &[u64],
    parts: &[u64],
    places: &[u64],
    body: &[u8],
    counters: &mut [u64],
    room: &mut [u8],
    first: usize,
    w: u64,
    from: usize,
    slot: u64,
    n: u64,
    v: u64,
    inner: u64,
    k: u64,
) -> u8
    requires counters_len { (length counters.old ≡ 96) × (first < 2 ^ 32) × (list_of_numbers plan.now ≡ true) × (n ≡ 0 → ⊥) }
    requires rows_in_lem { RowsIn (join plan.now [] [] places.now body.now first 0) w from slot n }
    requires items_in { ItemsIn (join plan.now [] [] places.now body.now first 0) v inner k }
    ensures { (sources lengths : List ℕ) (source start last lead : ℕ) → let j = join (was plan) (was parts) lengths (was places) (was body) first source in slot ≡ slot_of j 0 start n → Reaches j w from n counters.old inner k last lead → Settles (lent (was plan) (was parts) sources lengths (was places) (was body)) (copy_walk j 8 0 start n) counters room result }
{
    let r = plan_words::grow(lent_tables::at_u64(counters, 0), n);
    let items = plan_words::grow(lent_tables::at_u64(counters, 3), k);
    let g = room_ground(plan, parts, room.len(), r, items);
    if g != 0 {
        return g;
    }
    put_rows(
        plan, parts, places, body, counters, room, first, w, from, slot, n, v, inner, k,
    );
    0
}

// n slots of the list whose offsets fit, up to `last`, and reach the items from the row `lead` on.
fn copy_items(
    plan: &[u64],
    parts: &[u64],
    lengths: &[u64],
    places: &[u64],
    body: &[u8],
    counters: &mut [u64],
    room: &mut [u8],
    first: usize,
    w: u64,
    from: usize,
    slot: u64,
    n: u64,
    last: u64,
    lead: u64,
) -> u8
    requires counters_len { (length counters.old ≡ 96) × (first < 2 ^ 32) × (list_of_numbers plan.now ≡ true) × (n ≡ 0 → ⊥) }
    requires rows_in_lem { RowsIn (join plan.now [] [] places.now body.now first 0) w from slot n }
    requires counters_value { extended w body.now from n (rows counters.old 1) ≡ Fits last lead }
    ensures { (sources : List ℕ) (source start : ℕ) → let j = lent_join plan parts lengths places body first source in slot ≡ slot_of j 0 start n → Settles (lent (was plan) (was parts) sources (was lengths) (was places) (was body)) (copy_walk j 8 0 start n) counters room result }
{
    let k = last - lent_tables::at_u64(counters, 3);
    let inner = lookups::slot_of(lengths, first, 1, lead, k);
    if plan_words::FAR <= inner {
        return 12;
    }
    if !leaf_bits::bits_in(plan, places, body, first, 1, inner, k) {
        return 12;
    }
    let v = numbers::number_size(plan_words::code_of(plan, 1));
    let at = lent_tables::place(places, first + 1, 3);
    if !leaf_walk::rows_in(body, at, v, inner, k) {
        return 12;
    }
    write_rows(
        plan, parts, places, body, counters, room, first, w, from, slot, n, v, inner, k,
    )
}

// n slots of the list.
fn copy_slots(
    plan: &[u64],
    parts: &[u64],
    lengths: &[u64],
    places: &[u64],
    body: &[u8],
    counters: &mut [u64],
    room: &mut [u8],
    first: usize,
    slot: u64,
    n: u64,
) -> u8
    requires counters_len { (length counters.old ≡ 96) × (first < 2 ^ 32) × (list_of_numbers plan.now ≡ true) × (n ≡ 0 → ⊥) }
    requires n_bound { (slot + n < 2 ^ 63) × (bits_in (join plan.now [] [] places.now body.now first 0) 0 slot n ≡ true) }
    ensures { (sources : List ℕ) (source start : ℕ) → let j = lent_join plan parts lengths places body first source in slot ≡ slot_of j 0 start n → Settles (lent (was plan) (was parts) sources (was lengths) (was places) (was body)) (copy_walk j 8 0 start n) counters room result }
{
    let w = lookups::width_at(plan, 0);
    let at = lent_tables::place(places, first + 0, 3);
    if !leaf_walk::rows_in(body, at, w, slot, n + 1) {
        return 12;
    }
    let from = (at + w * slot) as usize;
    let old = lent_tables::at_u64(counters, 3);
    match variable_size::try_offsets(body, from, w, n as usize, old) {
        utils::Extended::Fits { last, first: lead } => copy_items(
            plan, parts, lengths, places, body, counters, room, first, w, from, slot, n, last, lead,
        ),
        utils::Extended::Over { .. } => 6,
        utils::Extended::Falls => 12,
    }
}

// The rows start .. start + n - 1, at least one, of a source whose first node is `first`.
pub fn copy_list_rows(
    plan: &[u64],
    parts: &[u64],
    lengths: &[u64],
    places: &[u64],
    body: &[u8],
    counters: &mut [u64],
    room: &mut [u8],
    first: usize,
    start: u64,
    n: u64,
) -> u8
    requires { (length counters.old ≡ 96) × (first < 2 ^ 32) × (list_of_numbers plan.now ≡ true) × (n ≡ 0 → ⊥) }
    ensures { CopiesAny plan parts lengths places body first start n counters room result }
{
    let slot = lookups::slot_of(lengths, first, 0, start, n);
    if plan_words::FAR <= slot {
        return 12;
    }
    if !leaf_bits::bits_in(plan, places, body, first, 0, slot, n) {
        return 12;
    }
    copy_slots(
        plan, parts, lengths, places, body, counters, room, first, slot, n,
    )
}
