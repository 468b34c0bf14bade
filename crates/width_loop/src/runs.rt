// Run ends: clipped to the rows that are written, and the values of their runs.
ghost use Rattle.std.specs.Prelude.{◌≡◌, [], ◌∷◌, ◌++◌, suc, ◌+◌, ◌*◌, ◌-◌, ◌<◌, ◌≤◌, ◌^◌, length};
ghost use Rattle.clauses.specs.Slices.{was, left};
ghost use Rattle.number.specs.Number.{encode};
ghost use Rattle.array_data.specs.Tables.{length_of, offset_of};
ghost use Rattle.array_data.specs.NodeKinds.{run_end_node};
ghost use Rattle.array_data.specs.Typed.{Tree};
ghost use Rattle.array_data.specs.entries.Entries.{column};
ghost use Rattle.walk.specs.State.{add_rows};
ghost use Rattle.walk.specs.Log.{put, apply_if};
ghost use Rattle.leaf_walk.specs.Walks.{Walks};
ghost use Rattle.recode.specs.Recode.{lessened};
ghost use Rattle.width_walks.specs.Nodes.{range, settle_as};
ghost use Rattle.width_loop.specs.Steps.{RunsHere, runs_walk, runs_range};
ghost use Rattle.width_loop.specs.Here.{AnyTree};

use crate::ranges;
use array_data::entries;
use nested_rows::lookups;
use run_ends::LogicalRow;
use walk::plan_words;

// m runs from run a on, of those whose ends of w bytes stand at `ends`: their ends less s, the last of them n, and their values' rows.
fn put_range(
    plan: &[u64],
    parts: &[u64],
    body: &[u8],
    counters: &mut [u64; plan_words::COUNTERS],
    ranges: &mut [u64; 64],
    room: &mut [u8],
    write: bool,
    i: usize,
    w: u64,
    w2: u64,
    ends: u64,
    a: u64,
    m: u64,
    s: u64,
    n: u64,
)
    requires i_bound { (i + 2 < 32) × (1 ≤ m) × (ends + w * (a + m) ≤ length body.now) }
    requires w_value { ((w ≡ 2 → ⊥) → (w ≡ 4 → ⊥) → w ≡ 8) × ((w2 ≡ 2 → ⊥) → (w2 ≡ 4 → ⊥) → w2 ≡ 8) }
    ensures room_value { room.new ≡ apply_if (was plan) (was parts) write (put (suc i) 1 0 (lessened w w2 (was body) (ends + w * a) s (m - 1) ++ encode w2 n) ∷ []) room.old }
    ensures counters_value { (counters.new ≡ add_rows (suc i) m counters.old) × (ranges.new ≡ range (suc (suc i)) a m ranges.old) }
{
    let from = ends + w * a;
    width_walks::width_writes::put_ends(
        plan,
        parts,
        room,
        write,
        i + 1,
        1,
        w2,
        body,
        from as usize,
        w,
        m,
        s,
        n,
    );
    plan_words::add_rows(counters, i + 1, m);
    ranges::set_range(ranges, i + 2, a, m);
}

// n rows from slot s on, at least one.
fn put_runs(
    plan: &[u64],
    parts: &[u64],
    lengths: &[u64],
    places: &[u64],
    body: &[u8],
    counters: &mut [u64; plan_words::COUNTERS],
    ranges: &mut [u64; 64],
    room: &mut [u8],
    write: bool,
    first: u32,
    i: usize,
    w: u64,
    w2: u64,
    s: u64,
    n: u64,
)
    requires i_bound { (i + 2 < 32) × (1 ≤ n) × (s + n < 2 ^ 63) × (offset_of (column lengths.now [] [] [] first) (suc i) + length_of (column lengths.now [] [] [] first) (suc i) < 2 ^ 63) }
    requires w_value { ((w ≡ 2 → ⊥) → (w ≡ 4 → ⊥) → w ≡ 8) × ((w2 ≡ 2 → ⊥) → (w2 ≡ 4 → ⊥) → w2 ≡ 8) }
    requires runs_here { RunsHere (column lengths.now places.now [] body.now first) i w s n }
    ensures walks { Walks plan parts write (runs_walk (column (was lengths) (was places) [] (was body) first) w w2 i s n) counters room 0 }
    ensures ranges_value { ranges.new ≡ runs_range (column (was lengths) (was places) [] (was body) first) w i s n ranges.old }
{
    let off = entries::offset_at(lengths, first, i + 1);
    let ends = entries::place_at(places, first, i + 1, 3) + w * off;
    let len = entries::length_at(lengths, first, i + 1) as usize;
    match lookups::runs_of(
        body,
        ends as usize,
        len,
        w,
        LogicalRow(s),
        LogicalRow(s + n),
    ) {
        Some(runs) => put_range(
            plan,
            parts,
            body,
            counters,
            ranges,
            room,
            write,
            i,
            w,
            w2,
            ends,
            runs.first.0 as u64,
            runs.count as u64,
            s,
            n,
        ),
        None => {}
    }
}

// Run ends: ground 7, their run ends, and the values of their runs. No rows have no runs.
pub fn walk_runs(
    plan: &[u64],
    parts: &[u64],
    lengths: &[u64],
    places: &[u64],
    body: &[u8],
    counters: &mut [u64; plan_words::COUNTERS],
    ranges: &mut [u64; 64],
    room: &mut [u8],
    write: bool,
    first: u32,
    i: usize,
    w: u64,
    w2: u64,
    s: u64,
    n: u64,
) -> u8
    requires i_bound { (i + 2 < 32) × (s + n < 2 ^ 63) × (offset_of (column lengths.now [] [] [] first) (suc i) + length_of (column lengths.now [] [] [] first) (suc i) < 2 ^ 63) }
    requires w_value { ((w ≡ 2 → ⊥) → (w ≡ 4 → ⊥) → w ≡ 8) × ((w2 ≡ 2 → ⊥) → (w2 ≡ 4 → ⊥) → w2 ≡ 8) }
    requires runs_here { RunsHere (column lengths.now places.now [] body.now first) i w s n }
    ensures any_tree { AnyTree (column (was lengths) (was places) [] (was body) first) (was plan) i s n (run_end_node w) (run_end_node w2) (λ own. Walks plan parts write own counters room result) }
    ensures ranges_value { (t t2 : Tree) → result ≡ 0 → ranges.new ≡ settle_as t t2 (column (was lengths) (was places) [] (was body) first) (was plan) (run_end_node w) i s n ranges.old }
{
    if n == 0 {
        plan_words::add_rows(counters, i + 1, 0);
        ranges::set_range(ranges, i + 2, 0, 0);
        return 0;
    }
    if !nested_rows::sum_fits(w2, 0, n) {
        return 7;
    }
    put_runs(
        plan, parts, lengths, places, body, counters, ranges, room, write, first, i, w, w2, s, n,
    );
    0
}
