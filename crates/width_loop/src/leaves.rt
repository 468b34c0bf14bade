// What one node writes, by its buffers: bits, slots, offsets, offsets with sizes, and keys.
ghost use Rattle.std.specs.Prelude.{◌≡◌, true, [], ◌∷◌, ℕ, ◌+◌, ◌*◌, ◌-◌, ◌<◌, ◌≤◌, ◌^◌, length, take, drop, ltb};
ghost use Rattle.clauses.specs.Slices.{was, left};
ghost use Rattle.number.specs.Number.{entry};
ghost use Rattle.recode.specs.Recode.{all_below};
ghost use Rattle.columnar.specs.Types.{half};
ghost use Rattle.columnar.specs.Array.{item, ok};
ghost use Rattle.columnar.specs.Plain.{OffsetsRule};
ghost use Rattle.columnar.specs.Entries.{encodes};
ghost use Rattle.columnar.specs.Test.{mask_test};
ghost use Rattle.array_data.specs.Tables.{part, valid_of, place, valid_in};
ghost use Rattle.array_data.specs.entries.Entries.{column};
ghost use Rattle.walk.specs.Log.{put, wrote, need, apply_if};
ghost use Rattle.with_capacities.specs.Lent.{Stays, Writes};
ghost use Rattle.anew.specs.widths.Converted.{span_of, offsets_of};
ghost use Rattle.width_walks.specs.Convert.{bits_walk};
ghost use Rattle.width_loop.specs.Steps.{pairs_walk, AnyPairs, keys_in};

use array_data::entries;
use nested_rows::lookups;
use recode::limits;
use walk::plan_words;

// The bits of n slots of node i from slot s on, where that node of the result keeps nulls.
pub fn put_bits(
    plan: &[u64],
    parts: &[u64],
    places: &[u64],
    body: &[u8],
    room: &mut [u8],
    write: bool,
    first: u32,
    i: usize,
    s: u64,
    n: u64,
)
    requires i_bound { (i < 32) × (s + n < 2 ^ 63) }
    requires i_value { (valid_in (column [] places.now [] body.now first) i ≡ true) × (mask_test true (valid_of (column [] places.now [] body.now first) i) (s + n) ≡ true) }
    ensures { Writes plan parts write (bits_walk (was plan) i (ok (valid_of (column [] (was places) [] (was body) first) i)) s n) room 0 }
{
    if plan_words::keeps_of(plan, i) == 0 {
        return;
    }
    if entries::place_at(places, first, i, 0) == 0 {
        room_writes::validity::put_ones(plan, parts, room, write, i, 0, n);
        return;
    }
    let at = entries::place_at(places, first, i, 1);
    room_writes::validity::put_mask(plan, parts, room, write, i, 0, body, at as usize, s, n);
}

// n slots of w bytes from slot s on of those at `at`.
pub fn put_slots(
    plan: &[u64],
    parts: &[u64],
    body: &[u8],
    room: &mut [u8],
    write: bool,
    i: usize,
    b: usize,
    at: u64,
    w: u64,
    s: u64,
    n: u64,
)
    requires { (i < 32) × (b < 3) × (at + w * (s + n) ≤ length body.now) }
    ensures { room.new ≡ apply_if (was plan) (was parts) write (put i b 0 (take (w * n) (drop (at + w * s) (was body))) ∷ []) room.old }
{
    let from = at + w * s;
    room_writes::put_copy(
        plan,
        parts,
        room,
        write,
        i,
        b,
        0,
        body,
        from as usize,
        w * n,
    );
}

// Offset p of those of w bytes in the range of `size` bytes from `at` on; 0 where that is empty.
pub fn offset_at(body: &[u8], at: u64, size: u64, w: u64, p: u64) -> u64
    requires size_in_bounds { (at + size ≤ length body.now) × ((size ≡ 0 → ⊥) → (p + 1) * w ≤ size) }
    requires w_value { (w ≡ 4 → ⊥) → w ≡ 8 }
    ensures { result ≡ item w (part (was body) at size) p }
{
    if size == 0 {
        return 0;
    }
    lookups::entry_at(body, at, w, p)
}

// The offsets of n rows from slot s on, counted from the first of them, as offsets of w2 bytes: ground 6 where they span too much.
pub fn put_offsets(
    plan: &[u64],
    parts: &[u64],
    body: &[u8],
    room: &mut [u8],
    write: bool,
    i: usize,
    at: u64,
    size: u64,
    w: u64,
    w2: u64,
    s: u64,
    n: u64,
) -> u8
    requires i_bound { (i < 32) × (at + size ≤ length body.now) × (s + n < 2 ^ 63) }
    requires w_value { ((w ≡ 4 → ⊥) → w ≡ 8) × ((w2 ≡ 4 → ⊥) → w2 ≡ 8) }
    requires by_index { (most : ℕ) × OffsetsRule w (part body.now at size) most s n }
    ensures { let p = part (was body) at size in Writes plan parts write (λ c. need (ltb (span_of w p s n) (half w2)) 6 c (wrote (put i 1 0 (encodes w2 (offsets_of w p s n))) c)) room result }
{
    let base = offset_at(body, at, size, w, s);
    let span = offset_at(body, at, size, w, s + n) - base;
    if !nested_rows::sum_fits(w2, 0, span) {
        return 6;
    }
    if size == 0 {
        room_writes::put_number(plan, parts, room, write, i, 1, 0, w2, 0);
        return 0;
    }
    let from = at + w * s;
    width_walks::width_writes::put_less(
        plan,
        parts,
        room,
        write,
        i,
        1,
        w2,
        body,
        from as usize,
        w,
        n + 1,
        base,
    );
    0
}

// Half of the numbers of w bytes.
fn half_of(w: u64) -> u64
    requires { (w ≡ 4 → ⊥) → w ≡ 8 }
    ensures { result ≡ half w }
{
    if w == 4 {
        2147483648
    } else {
        9223372036854775808
    }
}

// Whether each of n entries of w bytes from `from` on, none of them negative or above `most`, fits w2 bytes: of a smaller width, or where
// `most` fits, they are not looked at.
fn all_fit(body: &[u8], from: usize, w: u64, w2: u64, n: usize, most: u64) -> bool
    requires n_in_bounds { (from + w * n ≤ length body.now) × ((j : ℕ) → j < n → entry w body.now from j < half w) × ((j : ℕ) → j < n → entry w body.now from j ≤ most) }
    requires w_value { ((w ≡ 4 → ⊥) → w ≡ 8) × ((w2 ≡ 4 → ⊥) → w2 ≡ 8) }
    ensures { result ≡ all_below w (was body) from (half w2) n }
{
    if w <= w2 {
        return true;
    }
    let limit = half_of(w2);
    if most < limit {
        return true;
    }
    limits::all_below(body, from, w, n, limit)
}

// The offsets at `at` and the sizes at `too` of n rows from slot s on, none above `most`, as numbers of w2 bytes: ground 6 where one does
// not fit.
pub fn put_pairs(
    plan: &[u64],
    parts: &[u64],
    body: &[u8],
    room: &mut [u8],
    write: bool,
    i: usize,
    at: u64,
    too: u64,
    w: u64,
    w2: u64,
    s: u64,
    n: u64,
    most: u64,
) -> u8
    requires i_bound { (i < 32) × (at + w * (s + n) ≤ length body.now) × (too + w * (s + n) ≤ length body.now) }
    requires w_value { ((w ≡ 4 → ⊥) → w ≡ 8) × ((w2 ≡ 4 → ⊥) → w2 ≡ 8) }
    requires by_index { ((j : ℕ) → j < n → entry w body.now (at + w * s) j < half w) × ((j : ℕ) → j < n → entry w body.now (too + w * s) j < half w) }
    requires by_index_2 { ((j : ℕ) → j < n → entry w body.now (at + w * s) j ≤ most) × ((j : ℕ) → j < n → entry w body.now (too + w * s) j ≤ most) }
    ensures { AnyPairs (was body) at too w s n (λ p q c. Stays plan parts write (pairs_walk p q w w2 i s n c) room result c) }
{
    let offsets = at + w * s;
    if !all_fit(body, offsets as usize, w, w2, n as usize, most) {
        return 6;
    }
    let sizes = too + w * s;
    if !all_fit(body, sizes as usize, w, w2, n as usize, most) {
        return 6;
    }
    width_walks::width_writes::put_recoded(
        plan,
        parts,
        room,
        write,
        i,
        1,
        w2,
        body,
        offsets as usize,
        w,
        n,
    );
    width_walks::width_writes::put_recoded(
        plan,
        parts,
        room,
        write,
        i,
        2,
        w2,
        body,
        sizes as usize,
        w,
        n,
    );
    0
}

// The keys of n slots of node i from slot s on, as keys of w2 bytes: 0 under a null.
pub fn put_keys(
    plan: &[u64],
    parts: &[u64],
    places: &[u64],
    body: &[u8],
    room: &mut [u8],
    write: bool,
    first: u32,
    i: usize,
    w: u64,
    w2: u64,
    s: u64,
    n: u64,
)
    requires fact { let c = column [] places.now [] body.now first in (i < 32) × (s + n < 2 ^ 63) × ((s + n) * w ≤ place c i 4) × (place c i 3 + place c i 4 ≤ length body.now) }
    requires i_value { (valid_in (column [] places.now [] body.now first) i ≡ true) × (mask_test true (valid_of (column [] places.now [] body.now first) i) (s + n) ≡ true) }
    requires w_value { ((w ≡ 1 → ⊥) → (w ≡ 2 → ⊥) → (w ≡ 4 → ⊥) → w ≡ 8) × ((w2 ≡ 1 → ⊥) → (w2 ≡ 2 → ⊥) → (w2 ≡ 4 → ⊥) → w2 ≡ 8) }
    ensures { let c = column [] (was places) [] (was body) first in room.new ≡ apply_if (was plan) (was parts) write (put i 1 0 (encodes w2 (keys_in c w i s n)) ∷ []) room.old }
{
    let at = entries::place_at(places, first, i, 3);
    let from = at + w * s;
    if entries::place_at(places, first, i, 0) == 0 {
        width_walks::width_writes::put_recoded(
            plan,
            parts,
            room,
            write,
            i,
            1,
            w2,
            body,
            from as usize,
            w,
            n,
        );
        return;
    }
    let valid = entries::place_at(places, first, i, 1);
    width_walks::width_writes::put_valid(
        plan,
        parts,
        room,
        write,
        i,
        1,
        w2,
        body,
        from as usize,
        w,
        valid as usize,
        s,
        n,
    );
}
