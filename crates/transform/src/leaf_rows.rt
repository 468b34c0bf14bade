// Copies at a leaf: whether one is refused is known before anything is written, so that it is walked once and no counters are copied.
ghost use Rattle.std.specs.Prelude.{◌≡◌, List, [], true, false, ℕ, ◌+◌, ◌*◌, ◌-◌, ◌<◌, ◌≤◌, ◌^◌, length};
ghost use Rattle.clauses.specs.Slices.{was, left};
ghost use Rattle.schema.specs.formats.Code.{is_string};
ghost use Rattle.utils.specs.Extension.{extended};
ghost use Rattle.utils.specs.declared.Extended.TheVariants.{Fits};
ghost use Rattle.walk.specs.State.{code_of, bytes_of, bytes, place, slot_of};
ghost use Rattle.walk.specs.Log.{Did};
ghost use Rattle.walk.specs.Leaves.{put_string};
ghost use Rattle.walk.specs.Copy.{Walk, copy_data, copy_walk};
ghost use Rattle.leaf_walk.specs.Join.{join};
ghost use Rattle.leaf_walk.specs.Walks.{Walks};
ghost use Rattle.plan.specs.parts.Parts.{entry_size};
ghost use Rattle.transform.specs.Answer.{lent, Settles, Copies, CopiesAt};
ghost use Rattle.transform.specs.leaf_rows.Leaf.{bits_in};

use crate::{leaf_bits, leaf_counters};
use array_data::lent_tables;
use leaf_walk::variable_size;
use nested_rows::lookups;
use walk::plan_words;

// ---- numbers, keys and views

// Entries of w bytes of n slots of node i.
fn put_entries(
    plan: &[u64],
    parts: &[u64],
    places: &[u64],
    body: &[u8],
    counters: &[u64],
    room: &mut [u8],
    source: usize,
    first: usize,
    i: usize,
    w: u64,
    slot: u64,
    n: u64,
)
    requires first_bound { (first < 2 ^ 32) × (source < 2 ^ 32) × (i < 32) × (slot + n < 2 ^ 63) }
    requires bound { (1 ≤ code_of plan.now i) × (code_of plan.now i < 17) × (is_string (code_of plan.now i) ≡ false) × (w ≡ entry_size (code_of plan.now i)) }
    requires n_in_bounds { place (join [] [] [] places.now [] first 0) i 3 + w * (slot + n) ≤ length body.now }
    ensures { (lengths : List ℕ) (child : Walk) → Did (was plan) (was parts) true (copy_data (join (was plan) (was parts) lengths (was places) (was body) first source) child (code_of (was plan) i) i slot n (was counters)) room.old 0 (was counters) room.new }
{
    let from = lent_tables::place(places, first + i, 3) + w * slot;
    let o = plan_words::scale(lent_tables::at_u64(counters, 3 * i), w);
    if schema::formats::is_view(plan_words::code_of(plan, i)) {
        let base = plan_words::base_of(plan, source, i);
        room_writes::put_views(
            plan,
            parts,
            room,
            true,
            i,
            1,
            o,
            body,
            from as usize,
            n,
            base,
        );
        return;
    }
    if plan_words::dictionary_of(plan, i) == 0 {
        room_writes::put_copy(plan, parts, room, true, i, 1, o, body, from as usize, w * n);
        return;
    }
    let base = plan_words::base_of(plan, source, i);
    room_writes::keys::put_keys(
        plan,
        parts,
        room,
        true,
        i,
        1,
        o,
        w,
        body,
        from as usize,
        n,
        base,
    );
}

// n slots of a node of numbers, keys or views.
fn copy_entries(
    plan: &[u64],
    parts: &[u64],
    places: &[u64],
    body: &[u8],
    counters: &mut [u64],
    room: &mut [u8],
    source: usize,
    first: usize,
    i: usize,
    slot: u64,
    n: u64,
) -> u8
    requires counters_len { (length counters.old ≡ 96) × (first < 2 ^ 32) × (source < 2 ^ 32) × (i < 32) × (slot + n < 2 ^ 63) }
    requires bound { (1 ≤ code_of plan.now i) × (code_of plan.now i < 17) × (is_string (code_of plan.now i) ≡ false) }
    requires n_value { bits_in (join plan.now [] [] places.now body.now first 0) i slot n ≡ true }
    ensures { (sources lengths : List ℕ) (start : ℕ) → let j = join (was plan) (was parts) lengths (was places) (was body) first source in slot ≡ slot_of j i start n → Settles (lent (was plan) (was parts) sources lengths (was places) (was body)) (copy_walk j 8 i start n) counters room result }
{
    let w = plan::parts::entry_size(plan_words::code_of(plan, i)) as u64;
    if !leaf_walk::rows_in(body, lent_tables::place(places, first + i, 3), w, slot, n) {
        return 12;
    }
    let b = lent_tables::at_u64(counters, 3 * i + 2);
    let g = leaf_counters::room_ground(plan, parts, counters, room.len(), i, n, b);
    if g != 0 {
        return g;
    }
    leaf_bits::put_bits(plan, parts, places, body, counters, room, first, i, slot, n);
    put_entries(
        plan, parts, places, body, counters, room, source, first, i, w, slot, n,
    );
    leaf_counters::add_to(counters, 3 * i, n);
    0
}

// ---- byte strings

// The n offsets of w bytes after the first of those at `from`, and the bytes from the source's offset `lead` on: `last` is the offset behind them.
fn put_text(
    plan: &[u64],
    parts: &[u64],
    places: &[u64],
    body: &[u8],
    counters: &mut [u64],
    room: &mut [u8],
    first: usize,
    i: usize,
    w: u64,
    from: usize,
    n: u64,
    last: u64,
    lead: u64,
)
    requires counters_len { (length counters.old ≡ 96) × (first < 2 ^ 32) × (i < 32) × (from + w * (n + 1) ≤ length body.now) × (bytes counters.old i ≤ last) }
    requires w_value { (w ≡ 4 → ⊥) → w ≡ 8 }
    requires i_in_bounds { place (join [] [] [] places.now [] first 0) i 5 + lead + (last - bytes counters.old i) ≤ length body.now }
    ensures { (lengths : List ℕ) (source : ℕ) → Walks plan parts true (put_string (join (was plan) (was parts) lengths (was places) (was body) first source) i w from n last lead) counters room 0 }
{
    let old = lent_tables::at_u64(counters, 3 * i + 2);
    let o = plan_words::scale(plan_words::grow(lent_tables::at_u64(counters, 3 * i), 1), w);
    room_writes::variable_size::put_offsets(
        plan, parts, room, true, i, 1, o, w, body, from, n, old,
    );
    let begin = lent_tables::place(places, first + i, 5) + lead;
    room_writes::put_copy(
        plan,
        parts,
        room,
        true,
        i,
        2,
        old,
        body,
        begin as usize,
        last - old,
    );
    counters[3 * i + 2] = last;
}

// n slots of a byte string whose offsets, w bytes each, fit.
fn write_text(
    plan: &[u64],
    parts: &[u64],
    places: &[u64],
    body: &[u8],
    counters: &mut [u64],
    room: &mut [u8],
    first: usize,
    i: usize,
    w: u64,
    from: usize,
    slot: u64,
    n: u64,
    last: u64,
    lead: u64,
) -> u8
    requires counters_len { (length counters.old ≡ 96) × (first < 2 ^ 32) × (i < 32) × (slot + n < 2 ^ 63) × (n ≡ 0 → ⊥) }
    requires i_value { (is_string (code_of plan.now i) ≡ true) × (w ≡ bytes_of plan.now i) }
    requires from_value { (from ≡ place (join [] [] [] places.now [] first 0) i 3 + w * slot) × (from + w * (n + 1) ≤ length body.now) × (extended w body.now from n (bytes counters.old i) ≡ Fits last lead) }
    requires n_value { bits_in (join plan.now [] [] places.now body.now first 0) i slot n ≡ true }
    ensures { CopiesAt plan parts places body first i slot n counters room result }
{
    let at = lent_tables::place(places, first + i, 5);
    let old = lent_tables::at_u64(counters, 3 * i + 2);
    if !variable_size::bytes_in(body, at, lead, last - old) {
        return 12;
    }
    let g = leaf_counters::room_ground(plan, parts, counters, room.len(), i, n, last);
    if g != 0 {
        return g;
    }
    leaf_bits::put_bits(plan, parts, places, body, counters, room, first, i, slot, n);
    put_text(
        plan, parts, places, body, counters, room, first, i, w, from, n, last, lead,
    );
    leaf_counters::add_to(counters, 3 * i, n);
    0
}

// n slots of a byte string.
fn copy_text(
    plan: &[u64],
    parts: &[u64],
    places: &[u64],
    body: &[u8],
    counters: &mut [u64],
    room: &mut [u8],
    first: usize,
    i: usize,
    slot: u64,
    n: u64,
) -> u8
    requires counters_len { (length counters.old ≡ 96) × (first < 2 ^ 32) × (i < 32) × (slot + n < 2 ^ 63) × (n ≡ 0 → ⊥) }
    requires i_value { is_string (code_of plan.now i) ≡ true }
    requires n_value { bits_in (join plan.now [] [] places.now body.now first 0) i slot n ≡ true }
    ensures { CopiesAt plan parts places body first i slot n counters room result }
{
    let w = lookups::width_at(plan, i);
    let at = lent_tables::place(places, first + i, 3);
    if !leaf_walk::rows_in(body, at, w, slot, n + 1) {
        return 12;
    }
    let from = (at + w * slot) as usize;
    let old = lent_tables::at_u64(counters, 3 * i + 2);
    match variable_size::try_offsets(body, from, w, n as usize, old) {
        utils::Extended::Fits { last, first: lead } => write_text(
            plan, parts, places, body, counters, room, first, i, w, from, slot, n, last, lead,
        ),
        utils::Extended::Over { .. } => 6,
        utils::Extended::Falls => 12,
    }
}

// ---- the order

// The rows start .. start + n - 1, at least one, of a source whose first node is `first`, where that is a leaf.
pub fn copy_leaf_rows(
    plan: &[u64],
    parts: &[u64],
    lengths: &[u64],
    places: &[u64],
    body: &[u8],
    counters: &mut [u64],
    room: &mut [u8],
    source: usize,
    first: usize,
    start: u64,
    n: u64,
) -> u8
    requires { (length counters.old ≡ 96) × (first < 2 ^ 32) × (source < 2 ^ 32) × (n ≡ 0 → ⊥) × (1 ≤ code_of plan.now 0) × (code_of plan.now 0 < 17) }
    ensures { Copies plan parts lengths places body first source start n counters room result }
{
    let slot = lookups::slot_of(lengths, first, 0, start, n);
    if plan_words::FAR <= slot {
        return 12;
    }
    if !leaf_bits::bits_in(plan, places, body, first, 0, slot, n) {
        return 12;
    }
    if schema::formats::is_string(plan_words::code_of(plan, 0)) {
        return copy_text(plan, parts, places, body, counters, room, first, 0, slot, n);
    }
    copy_entries(
        plan, parts, places, body, counters, room, source, first, 0, slot, n,
    )
}
