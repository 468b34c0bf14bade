// Stretches of byte strings without validity: offsets and bytes. The steps are those of `leaf_walk::variable_size`, whose inlining a second caller would end.
ghost use Rattle.std.specs.Prelude.{◌≡◌, true, List, [], ◌∷◌, ℕ, ◌+◌, ◌*◌, ◌<◌, ◌≤◌, ◌^◌, length, take, drop};
ghost use Rattle.clauses.specs.Slices.{was, left};
ghost use Rattle.utils.specs.Extension.{extended};
ghost use Rattle.walk.specs.State.{bytes_of, bytes};
ghost use Rattle.walk.specs.Log.{put, apply_if};
ghost use Rattle.walk.specs.Leaves.{put_string, put_extended};
ghost use Rattle.leaf_walk.specs.Join.{join};
ghost use Rattle.leaf_walk.specs.Walks.{lent_join, Walks, AnyLengths};
ghost use Rattle.batch.specs.Stretch.{never_falls};
ghost use Rattle.batch.specs.Batch.{batch_leaf};
ghost use Rattle.batch.specs.batch_walk.Plain.{is_text, steady_string};

use crate::short_copy;
use array_data::lent_tables;
use leaf_walk::variable_size;
use nested_rows::lookups;
use walk::plan_words;

// Whether node k is of byte strings, and keeps no nulls.
pub fn is_text(plan: &[u64], k: usize) -> bool
    requires { k < 32 }
    ensures { result ≡ is_text (was plan) k }
{
    if !schema::formats::is_string(plan_words::code_of(plan, k)) {
        return false;
    }
    plan_words::keeps_of(plan, k) == 0
}

// n bytes of body from `from` on, as the bytes of node k from its byte o on.
pub fn put_chars(
    plan: &[u64],
    parts: &[u64],
    room: &mut [u8],
    write: bool,
    k: usize,
    o: u64,
    body: &[u8],
    from: usize,
    n: u64,
)
    requires { (k < 32) × (from + n ≤ length body.now) }
    ensures { room.new ≡ apply_if (was plan) (was parts) write (put k 2 o (take n (drop from (was body))) ∷ []) room.old }
{
    if let Some(at) = plan_words::target(plan, parts, room.len(), write, k, 2, o, n) {
        short_copy::copy_short(room, at, body, from, n as usize);
    }
}

// Whether the n + 1 offsets of w bytes at `from` never fall.
fn rises_by(body: &[u8], from: u64, w: u64, n: u64) -> bool
    requires n_in_bounds { (from + w * (n + 1) ≤ length body.now) × (n < 2 ^ 63) }
    requires w_value { (w ≡ 4 → ⊥) → w ≡ 8 }
    ensures { result ≡ never_falls w (was body) from n }
{
    let mut before = lookups::entry_at(body, from, w, 0);
    for r in 0..n {
        let next = lookups::entry_at(body, from, w, r + 1);
        if next < before {
            return false;
        }
        before = next;
    }
    true
}

// The same of at most four offsets, without a loop.
fn few_rise(body: &[u8], from: u64, w: u64, n: u64) -> bool
    requires n_in_bounds { (from + w * (n + 1) ≤ length body.now) × (n ≤ 3) }
    requires w_value { (w ≡ 4 → ⊥) → w ≡ 8 }
    ensures { result ≡ never_falls w (was body) from n }
{
    let lead = lookups::entry_at(body, from, w, 0);
    let one = lookups::entry_at(body, from, w, n.min(1));
    if one < lead {
        return false;
    }
    let two = lookups::entry_at(body, from, w, n.min(2));
    if two < one {
        return false;
    }
    let last = lookups::entry_at(body, from, w, n);
    if last < two {
        return false;
    }
    true
}

// The same of any.
fn rises(body: &[u8], from: u64, w: u64, n: u64) -> bool
    requires n_in_bounds { (from + w * (n + 1) ≤ length body.now) × (n < 2 ^ 63) }
    requires w_value { (w ≡ 4 → ⊥) → w ≡ 8 }
    ensures { result ≡ never_falls w (was body) from n }
{
    if n <= 3 {
        return few_rise(body, from, w, n);
    }
    rises_by(body, from, w, n)
}

// The same, each width by itself.
pub fn never_falls(body: &[u8], from: u64, w: u64, n: u64) -> bool
    requires n_in_bounds { (from + w * (n + 1) ≤ length body.now) × (n < 2 ^ 63) }
    requires w_value { (w ≡ 4 → ⊥) → w ≡ 8 }
    ensures { result ≡ never_falls w (was body) from n }
{
    if w == 4 {
        return rises(body, from, 4, n);
    }
    rises(body, from, 8, n)
}

// The n offsets of w bytes after the first of those at `from`, and the bytes from the source's offset `lead` on: `last` is the offset behind them.
fn put_string(
    plan: &[u64],
    parts: &[u64],
    places: &[u64],
    body: &[u8],
    counters: &mut [u64; plan_words::COUNTERS],
    room: &mut [u8],
    write: bool,
    first: usize,
    k: usize,
    w: u64,
    from: usize,
    n: u64,
    last: u64,
    lead: u64,
) -> u8
    requires first_bound { (first < 2 ^ 32) × (k < 32) × (from + w * (n + 1) ≤ length body.now) × (bytes counters.old k ≤ last) × (last < 2 ^ 63) }
    requires w_value { (w ≡ 4 → ⊥) → w ≡ 8 }
    ensures { AnyLengths plan parts places body first (λ j. Walks plan parts write (put_string j k w from n last lead) counters room result) }
{
    let at = lent_tables::place(places, first + k, 5);
    let old = plan_words::bytes_of(counters, k);
    if !variable_size::bytes_in(body, at, lead, last - old) {
        return 12;
    }
    let o = plan_words::scale(plan_words::grow(plan_words::rows_of(counters, k), 1), w);
    room_writes::variable_size::put_offsets(
        plan, parts, room, write, k, 1, o, w, body, from, n, old,
    );
    let begin = at + lead;
    put_chars(
        plan,
        parts,
        room,
        write,
        k,
        old,
        body,
        begin as usize,
        last - old,
    );
    plan_words::set_bytes(counters, k, last);
    0
}

// The offsets tried, and then put.
fn put_extended(
    plan: &[u64],
    parts: &[u64],
    places: &[u64],
    body: &[u8],
    counters: &mut [u64; plan_words::COUNTERS],
    room: &mut [u8],
    write: bool,
    first: usize,
    k: usize,
    w: u64,
    from: usize,
    n: u64,
) -> u8
    requires first_bound { (first < 2 ^ 32) × (k < 32) × (from + w * (n + 1) ≤ length body.now) }
    requires w_value { (w ≡ 4 → ⊥) → w ≡ 8 }
    ensures { AnyLengths plan parts places body first (λ j. Walks plan parts write (put_extended j k w from n (extended w (was body) from n (bytes counters.old k))) counters room result) }
{
    let last = plan_words::bytes_of(counters, k);
    match variable_size::try_offsets(body, from, w, n as usize, last) {
        utils::Extended::Fits { last, first: lead } => put_string(
            plan, parts, places, body, counters, room, write, first, k, w, from, n, last, lead,
        ),
        utils::Extended::Over { .. } => 6,
        utils::Extended::Falls => 12,
    }
}

// The rows slot .. slot + n - 1 of those that stand there, whose offsets of w bytes never fall.
fn copy_steady(
    plan: &[u64],
    parts: &[u64],
    places: &[u64],
    body: &[u8],
    counters: &mut [u64; plan_words::COUNTERS],
    room: &mut [u8],
    write: bool,
    first: usize,
    k: usize,
    w: u64,
    slot: u64,
    n: u64,
) -> u8
    requires first_bound { (first < 2 ^ 32) × (k < 32) × (slot + n < 2 ^ 63) }
    requires w_value { (w ≡ 4 → ⊥) → w ≡ 8 }
    ensures { (lengths : List ℕ) (source : ℕ) → Walks plan parts write (steady_string (join (was plan) (was parts) lengths (was places) (was body) first source) k w slot n) counters room result }
{
    if n == 0 {
        return 0;
    }
    let at = lent_tables::place(places, first + k, 3);
    if !leaf_walk::rows_in(body, at, w, slot, n + 1) {
        return 12;
    }
    let from = at + w * slot;
    if !never_falls(body, from, w, n) {
        return 12;
    }
    put_extended(
        plan,
        parts,
        places,
        body,
        counters,
        room,
        write,
        first,
        k,
        w,
        from as usize,
        n,
    )
}

// The rows a .. a + n - 1 of node k, whose offsets have w bytes.
pub fn copy_stretch(
    plan: &[u64],
    parts: &[u64],
    lengths: &[u64],
    places: &[u64],
    body: &[u8],
    counters: &mut [u64; plan_words::COUNTERS],
    room: &mut [u8],
    write: bool,
    first: usize,
    k: usize,
    w: u64,
    a: u64,
    n: u64,
) -> u8
    requires { (first < 2 ^ 32) × (k < 32) × (w ≡ bytes_of plan.now k) × (is_text plan.now k ≡ true) }
    ensures { (source : ℕ) → Walks plan parts write (batch_leaf (lent_join plan parts lengths places body first source) k a n) counters room result }
{
    let slot = lookups::slot_of(lengths, first, k, a, n);
    if plan_words::FAR <= slot {
        return 12;
    }
    let g = copy_steady(
        plan, parts, places, body, counters, room, write, first, k, w, slot, n,
    );
    if g != 0 {
        return g;
    }
    plan_words::add_rows(counters, k, n);
    0
}
