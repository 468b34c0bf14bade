// Run ends into the room.
ghost use Rattle.std.specs.Prelude.{◌≡◌, [], ◌∷◌, ◌+◌, ◌*◌, ◌-◌, ◌/◌, ◌<◌, ◌≤◌, ◌^◌, length};
ghost use Rattle.number.specs.Number.{splice};
ghost use Rattle.run_ends.specs.Clip.{clipped};
ghost use Rattle.walk.specs.Log.{put, apply_if};

use run_ends::copies;
use walk::plan_words;

// The n run ends of w bytes of those at `from`, clipped to the rows start .. end - 1, after the run end `last`, at `at`.
fn write_run_ends(
    room: &mut [u8],
    at: usize,
    w: u64,
    body: &[u8],
    from: usize,
    n: usize,
    start: run_ends::LogicalRow,
    end: run_ends::LogicalRow,
    last: u64,
)
    requires n_in_bounds { (at + w * n ≤ length room.old) × (from + w * n ≤ length body.now) × (last + (end.0 - start.0) < 256 ^ w / 2) }
    requires w_value { (w ≡ 2 → ⊥) → (w ≡ 4 → ⊥) → w ≡ 8 }
    ensures { room.new ≡ splice at (clipped w body.now from n start.0 end.0 last) room.old }
{
    match w {
        2 => copies::extend_run_ends::<u16>(room, at, body, from, n, start, end, last),
        4 => copies::extend_run_ends::<u32>(room, at, body, from, n, start, end, last),
        _ => copies::extend_run_ends::<u64>(room, at, body, from, n, start, end, last),
    }
}

// The n run ends of w bytes of those at `from`, clipped to the rows start .. end - 1, after the run end `last`.
pub fn put_run_ends(
    plan: &[u64],
    parts: &[u64],
    room: &mut [u8],
    write: bool,
    i: usize,
    b: usize,
    o: u64,
    w: u64,
    body: &[u8],
    from: usize,
    n: u64,
    start: run_ends::LogicalRow,
    end: run_ends::LogicalRow,
    last: u64,
)
    requires i_bound { (i < 32) × (b < 3) × (from + w * n ≤ length body.now) × (last + (end.0 - start.0) < 256 ^ w / 2) }
    requires w_value { (w ≡ 2 → ⊥) → (w ≡ 4 → ⊥) → w ≡ 8 }
    ensures { room.new ≡ apply_if plan.now parts.now write (put i b o (clipped w body.now from n start.0 end.0 last) ∷ []) room.old }
{
    if let Some(at) = plan_words::target(
        plan,
        parts,
        room.len(),
        write,
        i,
        b,
        o,
        plan_words::scale(n, w),
    ) {
        write_run_ends(room, at, w, body, from, n as usize, start, end, last);
    }
}
