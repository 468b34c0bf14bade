// Stretches of byte strings that nothing refuses: offsets and bytes, without a test.
ghost use Rattle.std.specs.Prelude.{◌≡◌, true, [], ℕ, ◌<◌, ◌^◌};
ghost use Rattle.walk.specs.State.{bytes_of, bytes, place};
ghost use Rattle.walk.specs.Leaves.{copy_string};
ghost use Rattle.leaf_walk.specs.Join.{join};
ghost use Rattle.leaf_walk.specs.Walks.{lent_join, Walks, AnyLengths};
ghost use Rattle.batch.specs.Batch.{batch_leaf};
ghost use Rattle.batch.specs.batch_walk.Plain.{is_text};
ghost use Rattle.batch.specs.batch_walk.Texts.{Fitting};

use crate::texts;
use array_data::lent_tables;
use nested_rows::lookups;
use walk::plan_words;

// The rows slot .. slot + n - 1 of those that stand there, whose offsets have w bytes.
fn put_rows(
    plan: &[u64],
    parts: &[u64],
    places: &[u64],
    body: &[u8],
    counters: &mut [u64; plan_words::COUNTERS],
    room: &mut [u8],
    write: bool,
    first: usize,
    k: usize,
    w: u64,
    slot: u64,
    n: u64,
)
    requires first_bound { (first < 2 ^ 32) × (k < 32) }
    requires w_value { (w ≡ 4 → ⊥) → w ≡ 8 }
    requires fact { let j = join [] [] [] places.now body.now first 0 in ((n ≡ 0 → ⊥) → Fitting w body.now (place j k 3) (place j k 5) slot n (bytes counters.old k)) }
    ensures { AnyLengths plan parts places body first (λ j. Walks plan parts write (copy_string j k w slot n) counters room 0) }
{
    if n == 0 {
        return;
    }
    let at = lent_tables::place(places, first + k, 3);
    let from = at + w * slot;
    let lead = lookups::entry_at(body, from, w, 0);
    let more = lookups::entry_at(body, from, w, n) - lead;
    let old = plan_words::bytes_of(counters, k);
    let o = plan_words::scale(plan_words::grow(plan_words::rows_of(counters, k), 1), w);
    room_writes::variable_size::put_offsets(
        plan,
        parts,
        room,
        write,
        k,
        1,
        o,
        w,
        body,
        from as usize,
        n,
        old,
    );
    let begin = lent_tables::place(places, first + k, 5) + lead;
    texts::put_chars(plan, parts, room, write, k, old, body, begin as usize, more);
    plan_words::set_bytes(counters, k, old + more);
}

// The rows a .. a + n - 1 of node k, whose offsets have w bytes.
pub fn put_stretch(
    plan: &[u64],
    parts: &[u64],
    lengths: &[u64],
    places: &[u64],
    body: &[u8],
    counters: &mut [u64; plan_words::COUNTERS],
    room: &mut [u8],
    write: bool,
    first: usize,
    k: usize,
    w: u64,
    a: u64,
    n: u64,
)
    requires first_bound { (first < 2 ^ 32) × (k < 32) × (w ≡ bytes_of plan.now k) × (is_text plan.now k ≡ true) }
    requires counters_value { let j = join plan.now parts.now lengths.now places.now body.now first 0 in (batch_leaf j k a n counters.old).ans ≡ 0 }
    ensures { (source : ℕ) → Walks plan parts write (batch_leaf (lent_join plan parts lengths places body first source) k a n) counters room 0 }
{
    let slot = lookups::slot_of(lengths, first, k, a, n);
    put_rows(
        plan, parts, places, body, counters, room, write, first, k, w, slot, n,
    );
    plan_words::add_rows(counters, k, n);
}
