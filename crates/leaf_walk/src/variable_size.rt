// The walk at byte strings and lists: offsets behind the last one, and the bytes that they reach.
// The answer is 0 or the ground of refusal; a walk that only tries changes the counters alone.
// What a function does not read of the order stands in its contract for all values.
ghost use Rattle.std.specs.Prelude.{◌≡◌, ◌+◌, ◌*◌, ◌<◌, ◌≤◌, ◌^◌, length, leb};
ghost use Rattle.clauses.specs.Slices.{was, left};
ghost use Rattle.utils.specs.Extension.{extended};
ghost use Rattle.walk.specs.State.{bytes};
ghost use Rattle.walk.specs.Log.{Did, apply_if};
ghost use Rattle.walk.specs.Leaves.{put_string, put_extended, copy_string, null_string};
ghost use Rattle.walk.specs.Nulls.{NullWalk, null_list};
ghost use Rattle.leaf_walk.specs.variable_size.Lists.{tried_offsets, offsets_log};
ghost use Rattle.leaf_walk.specs.Walks.{AnyLengths, AnySource, Walks};

use array_data::lent_tables;
use walk::plan_words;

// Whether n offsets of w bytes after the first of those at `from` fit after `last`.
pub fn try_offsets(body: &[u8], from: usize, w: u64, n: usize, last: u64) -> utils::Extended
    requires n_in_bounds { from + w * (n + 1) ≤ length body.now }
    requires w_value { (w ≡ 4 → ⊥) → w ≡ 8 }
    ensures { result ≡ extended w (was body) from n last }
{
    if w == 4 {
        return utils::try_offsets::<u32>(body, from, n, last);
    }
    utils::try_offsets::<u64>(body, from, n, last)
}

// Whether n bytes from the byte `lead` of the data at `at` on lie in the body.
pub fn bytes_in(body: &[u8], at: u64, lead: u64, n: u64) -> bool
    ensures { result ≡ leb (at + lead + n) (length (was body)) }
{
    lent_tables::fits_behind(at, lead, n, body.len() as u64)
}

// The n offsets of w bytes after the first of those at `from`, and the bytes from the source's offset `lead` on: `last` is the offset behind them.
fn put_string(
    plan: &[u64],
    parts: &[u64],
    places: &[u64],
    body: &[u8],
    counters: &mut [u64; plan_words::COUNTERS],
    room: &mut [u8],
    write: bool,
    first: usize,
    i: usize,
    w: u64,
    from: usize,
    n: u64,
    last: u64,
    lead: u64,
) -> u8
    requires first_bound { (first < 2 ^ 32) × (i < 32) × (from + w * (n + 1) ≤ length body.now) × (bytes counters.old i ≤ last) × (last < 2 ^ 63) }
    requires w_value { (w ≡ 4 → ⊥) → w ≡ 8 }
    ensures { AnyLengths plan parts places body first (λ j. Walks plan parts write (put_string j i w from n last lead) counters room result) }
{
    let at = lent_tables::place(places, first + i, 5);
    let old = plan_words::bytes_of(counters, i);
    if !bytes_in(body, at, lead, last - old) {
        return 12;
    }
    let o = plan_words::scale(plan_words::grow(plan_words::rows_of(counters, i), 1), w);
    room_writes::variable_size::put_offsets(
        plan, parts, room, write, i, 1, o, w, body, from, n, old,
    );
    let begin = at + lead;
    room_writes::put_copy(
        plan,
        parts,
        room,
        write,
        i,
        2,
        old,
        body,
        begin as usize,
        last - old,
    );
    plan_words::set_bytes(counters, i, last);
    0
}

// The offsets tried, and then put.
fn put_extended(
    plan: &[u64],
    parts: &[u64],
    places: &[u64],
    body: &[u8],
    counters: &mut [u64; plan_words::COUNTERS],
    room: &mut [u8],
    write: bool,
    first: usize,
    i: usize,
    w: u64,
    from: usize,
    n: u64,
) -> u8
    requires first_bound { (first < 2 ^ 32) × (i < 32) × (from + w * (n + 1) ≤ length body.now) }
    requires w_value { (w ≡ 4 → ⊥) → w ≡ 8 }
    ensures { AnyLengths plan parts places body first (λ j. Walks plan parts write (put_extended j i w from n (extended w (was body) from n (bytes counters.old i))) counters room result) }
{
    let last = plan_words::bytes_of(counters, i);
    match try_offsets(body, from, w, n as usize, last) {
        utils::Extended::Fits { last, first: lead } => put_string(
            plan, parts, places, body, counters, room, write, first, i, w, from, n, last, lead,
        ),
        utils::Extended::Over { .. } => 6,
        utils::Extended::Falls => 12,
    }
}

// Byte strings with offsets of w bytes.
pub fn copy_string(
    plan: &[u64],
    parts: &[u64],
    places: &[u64],
    body: &[u8],
    counters: &mut [u64; plan_words::COUNTERS],
    room: &mut [u8],
    write: bool,
    first: usize,
    i: usize,
    w: u64,
    slot: u64,
    n: u64,
) -> u8
    requires first_bound { (first < 2 ^ 32) × (i < 32) × (slot + n < 2 ^ 63) }
    requires w_value { (w ≡ 4 → ⊥) → w ≡ 8 }
    ensures { AnyLengths plan parts places body first (λ j. Walks plan parts write (copy_string j i w slot n) counters room result) }
{
    if n == 0 {
        return 0;
    }
    let at = lent_tables::place(places, first + i, 3);
    if !crate::rows_in(body, at, w, slot, n + 1) {
        return 12;
    }
    let from = at + w * slot;
    put_extended(
        plan,
        parts,
        places,
        body,
        counters,
        room,
        write,
        first,
        i,
        w,
        from as usize,
        n,
    )
}

// n nulls of w bytes an offset: the last offset, n times.
pub fn null_string(
    plan: &[u64],
    parts: &[u64],
    counters: &mut [u64; plan_words::COUNTERS],
    room: &mut [u8],
    write: bool,
    i: usize,
    w: u64,
    n: u64,
) -> u8
    requires i_bound { i < 32 }
    requires w_value { (w ≡ 4 → ⊥) → w ≡ 8 }
    ensures { AnySource plan parts (λ j. Walks plan parts write (null_string j i w n) counters room result) }
{
    let o = plan_words::scale(plan_words::grow(plan_words::rows_of(counters, i), 1), w);
    let last = plan_words::bytes_of(counters, i);
    room_writes::variable_size::put_repeated(plan, parts, room, write, i, 1, o, w, n, last);
    0
}

// The offsets of n rows of a list, with w bytes each, behind its child's rows: all of them, or none where they do not fit.
pub fn copy_offsets(
    plan: &[u64],
    parts: &[u64],
    places: &[u64],
    body: &[u8],
    counters: &[u64; plan_words::COUNTERS],
    room: &mut [u8],
    write: bool,
    first: usize,
    i: usize,
    w: u64,
    slot: u64,
    n: u64,
) -> utils::Extended
    requires first_bound { (first < 2 ^ 32) × (i + 1 < 32) × (slot + n < 2 ^ 63) }
    requires w_value { (w ≡ 4 → ⊥) → w ≡ 8 }
    ensures any_lengths { AnyLengths plan parts places body first (λ j. result ≡ tried_offsets j w i slot n (was counters)) }
    ensures any_lengths_2 { AnyLengths plan parts places body first (λ j. room.new ≡ apply_if (was plan) (was parts) write (offsets_log j w i slot n (was counters) result) room.old) }
{
    let at = lent_tables::place(places, first + i, 3);
    if !crate::rows_in(body, at, w, slot, n + 1) {
        return utils::Extended::Falls;
    }
    let from = at + w * slot;
    let old = plan_words::rows_of(counters, i + 1);
    match try_offsets(body, from as usize, w, n as usize, old) {
        utils::Extended::Fits { last, first: lead } => {
            let o = plan_words::scale(plan_words::grow(plan_words::rows_of(counters, i), 1), w);
            room_writes::variable_size::put_offsets(
                plan,
                parts,
                room,
                write,
                i,
                1,
                o,
                w,
                body,
                from as usize,
                n,
                old,
            );
            utils::Extended::Fits { last, first: lead }
        }
        utils::Extended::Over { row, needed } => utils::Extended::Over { row, needed },
        utils::Extended::Falls => utils::Extended::Falls,
    }
}

// n nulls of a list with offsets of w bytes: the last offset, n times.
pub fn null_list(
    plan: &[u64],
    parts: &[u64],
    counters: &[u64; plan_words::COUNTERS],
    room: &mut [u8],
    write: bool,
    i: usize,
    w: u64,
    n: u64,
) -> u8
    requires i_bound { i < 32 }
    requires w_value { (w ≡ 4 → ⊥) → w ≡ 8 }
    ensures { AnySource plan parts (λ j. (child : NullWalk) → Did (was plan) (was parts) write (null_list j child w i n (was counters)) room.old result (was counters) room.new) }
{
    if 32 <= i + 1 {
        return 12;
    }
    let o = plan_words::scale(plan_words::grow(plan_words::rows_of(counters, i), 1), w);
    let last = plan_words::rows_of(counters, i + 1);
    room_writes::variable_size::put_repeated(plan, parts, room, write, i, 1, o, w, n, last);
    0
}
