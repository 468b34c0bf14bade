// The walk at nodes that have no children: validity, numbers, keys and views, and the nulls of them.
// The answer is 0 or the ground of refusal; a walk that only tries changes the counters alone.
// What a function does not read of the order stands in its contract for all values.
#![tactic(auto)]

pub mod variable_size;

ghost use Rattle.std.specs.Prelude.{◌≡◌, Bool, not, ◌&&◌, List, ℕ, ◌+◌, ◌*◌, ◌<◌, ◌≤◌, ◌^◌, eqb};
ghost use Rattle.clauses.specs.Slices.{was, left};
ghost use Rattle.walk.specs.State.{bytes_of, nulls, top, rows_in};
ghost use Rattle.walk.specs.Log.{Did};
ghost use Rattle.walk.specs.Leaves.{copy_bits, copy_mask, null_mask, count_nulls, copy_numbers, copy_keys, copy_views, null_numbers};
ghost use Rattle.leaf_walk.specs.Join.{join};
ghost use Rattle.leaf_walk.specs.Walks.{AnyLengths, AnySource, Walks};

use array_data::lent_tables;
use walk::plan_words;

// Whether the entries of w bytes of the slots slot .. slot + n - 1 stand in the body from `at` on.
pub fn rows_in(body: &[u8], at: u64, w: u64, slot: u64, n: u64) -> bool
    requires { (w ≤ 16) × (slot + n < 2 ^ 64) }
    ensures { (plan parts lengths places : List ℕ) (first source : ℕ) → result ≡ rows_in (join plan parts lengths places (was body) first source) at w slot n }
{
    lent_tables::rows_fit_behind(at, slot + n, w as u8, body.len() as u64)
}

// Whether a walk that only tries need not look at node i's bits: its null counter is full, and stays so.
fn is_uncounted(counters: &[u64; plan_words::COUNTERS], write: bool, i: usize) -> bool
    requires { i < 32 }
    ensures { result ≡ (not write && eqb (nulls (was counters) i) top) }
{
    if write {
        return false;
    }
    counters[3 * i + 1] == u64::MAX
}

// The source's bits from `slot` on, with their zeros counted.
fn copy_bits(
    plan: &[u64],
    parts: &[u64],
    places: &[u64],
    body: &[u8],
    counters: &mut [u64; plan_words::COUNTERS],
    room: &mut [u8],
    write: bool,
    first: usize,
    i: usize,
    slot: u64,
    n: u64,
) -> u8
    requires { (first < 2 ^ 32) × (i < 32) × (slot + n < 2 ^ 63) }
    ensures { AnyLengths plan parts places body first (λ j. Walks plan parts write (copy_bits j i slot n) counters room result) }
{
    let at = lent_tables::place(places, first + i, 1);
    if !lent_tables::bits_fit_behind(at, slot, n, body.len() as u64) {
        return 12;
    }
    if is_uncounted(counters, write, i) {
        return 0;
    }
    let p = plan_words::rows_of(counters, i);
    let zeros = room_writes::validity::put_mask(
        plan,
        parts,
        room,
        write,
        i,
        p,
        body,
        at as usize,
        slot,
        n,
    );
    plan_words::add_nulls(counters, i, zeros);
    0
}

// The validity of n rows: the source's, or ones where it has none.
pub fn copy_mask(
    plan: &[u64],
    parts: &[u64],
    places: &[u64],
    body: &[u8],
    counters: &mut [u64; plan_words::COUNTERS],
    room: &mut [u8],
    write: bool,
    first: usize,
    i: usize,
    slot: u64,
    n: u64,
) -> u8
    requires { (first < 2 ^ 32) × (i < 32) × (slot + n < 2 ^ 63) }
    ensures { AnyLengths plan parts places body first (λ j. Walks plan parts write (copy_mask j i slot n) counters room result) }
{
    if plan_words::keeps_of(plan, i) == 0 {
        return 0;
    }
    if lent_tables::place(places, first + i, 0) == 0 {
        let p = plan_words::rows_of(counters, i);
        room_writes::validity::put_ones(plan, parts, room, write, i, p, n);
        return 0;
    }
    copy_bits(
        plan, parts, places, body, counters, room, write, first, i, slot, n,
    )
}

// Numbers of w bytes.
pub fn copy_numbers(
    plan: &[u64],
    parts: &[u64],
    places: &[u64],
    body: &[u8],
    counters: &mut [u64; plan_words::COUNTERS],
    room: &mut [u8],
    write: bool,
    first: usize,
    i: usize,
    w: u64,
    slot: u64,
    n: u64,
) -> u8
    requires { (first < 2 ^ 32) × (i < 32) × (slot + n < 2 ^ 63) × (1 ≤ w) × (w ≤ 16) }
    ensures { AnyLengths plan parts places body first (λ j. Walks plan parts write (copy_numbers j i w slot n) counters room result) }
{
    let at = lent_tables::place(places, first + i, 3);
    if !rows_in(body, at, w, slot, n) {
        return 12;
    }
    let o = plan_words::scale(plan_words::rows_of(counters, i), w);
    let from = at + w * slot;
    room_writes::put_copy(
        plan,
        parts,
        room,
        write,
        i,
        1,
        o,
        body,
        from as usize,
        w * n,
    );
    0
}

// Keys of w bytes, each plus the source's base.
pub fn copy_keys(
    plan: &[u64],
    parts: &[u64],
    places: &[u64],
    body: &[u8],
    counters: &mut [u64; plan_words::COUNTERS],
    room: &mut [u8],
    write: bool,
    source: usize,
    first: usize,
    i: usize,
    w: u64,
    slot: u64,
    n: u64,
) -> u8
    requires first_bound { (first < 2 ^ 32) × (i < 32) × (slot + n < 2 ^ 63) × (source < 2 ^ 32) }
    requires w_value { (w ≡ 1 → ⊥) → (w ≡ 2 → ⊥) → (w ≡ 4 → ⊥) → w ≡ 8 }
    requires w_value_2 { w ≡ bytes_of plan.now i }
    ensures { (lengths : List ℕ) → Walks plan parts write (copy_keys (join (was plan) (was parts) lengths (was places) (was body) first source) i w slot n) counters room result }
{
    let at = lent_tables::place(places, first + i, 3);
    if !rows_in(body, at, w, slot, n) {
        return 12;
    }
    let o = plan_words::scale(plan_words::rows_of(counters, i), w);
    let from = at + w * slot;
    let base = plan_words::base_of(plan, source, i);
    room_writes::keys::put_keys(
        plan,
        parts,
        room,
        write,
        i,
        1,
        o,
        w,
        body,
        from as usize,
        n,
        base,
    );
    0
}

// Views, the buffer numbers raised by the source's base.
pub fn copy_views(
    plan: &[u64],
    parts: &[u64],
    places: &[u64],
    body: &[u8],
    counters: &mut [u64; plan_words::COUNTERS],
    room: &mut [u8],
    write: bool,
    source: usize,
    first: usize,
    i: usize,
    slot: u64,
    n: u64,
) -> u8
    requires { (first < 2 ^ 32) × (i < 32) × (slot + n < 2 ^ 63) × (source < 2 ^ 32) }
    ensures { (lengths : List ℕ) → Walks plan parts write (copy_views (join (was plan) (was parts) lengths (was places) (was body) first source) i slot n) counters room result }
{
    let at = lent_tables::place(places, first + i, 3);
    if !rows_in(body, at, 16, slot, n) {
        return 12;
    }
    let o = plan_words::scale(plan_words::rows_of(counters, i), 16);
    let from = at + 16 * slot;
    let base = plan_words::base_of(plan, source, i);
    room_writes::put_views(
        plan,
        parts,
        room,
        write,
        i,
        1,
        o,
        body,
        from as usize,
        n,
        base,
    );
    0
}

// The validity of n nulls: zeros, all counted.
pub fn null_mask(
    plan: &[u64],
    parts: &[u64],
    counters: &mut [u64; plan_words::COUNTERS],
    room: &mut [u8],
    write: bool,
    i: usize,
    n: u64,
) -> u8
    requires { i < 32 }
    ensures { AnySource plan parts (λ j. Walks plan parts write (null_mask j i n) counters room result) }
{
    if plan_words::keeps_of(plan, i) == 0 {
        return 0;
    }
    let p = plan_words::rows_of(counters, i);
    room_writes::validity::put_null_bits(plan, parts, room, write, i, p, n);
    plan_words::add_nulls(counters, i, n);
    0
}

// n nulls of a node that holds no validity are counted.
pub fn count_nulls(plan: &[u64], counters: &mut [u64; plan_words::COUNTERS], i: usize, n: u64) -> u8
    requires { i < 32 }
    ensures { (parts lengths places body room : List ℕ) (first source : ℕ) (write : Bool) → Did (was plan) parts write (count_nulls (join (was plan) parts lengths places body first source) i n counters.old) room result counters.new room }
{
    if plan_words::keeps_of(plan, i) == 0 {
        return 0;
    }
    plan_words::add_nulls(counters, i, n);
    0
}

// n null slots of w bytes in buffer b.
pub fn null_numbers(
    plan: &[u64],
    parts: &[u64],
    counters: &mut [u64; plan_words::COUNTERS],
    room: &mut [u8],
    write: bool,
    i: usize,
    b: usize,
    w: u64,
    n: u64,
) -> u8
    requires { (i < 32) × (b < 3) × (1 ≤ w) × (w ≤ 16) }
    ensures { AnySource plan parts (λ j. Walks plan parts write (null_numbers j i b w n) counters room result) }
{
    let o = plan_words::scale(plan_words::rows_of(counters, i), w);
    room_writes::put_zeros(plan, parts, room, write, i, b, o, w, n);
    0
}
