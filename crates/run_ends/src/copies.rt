// The run ends of a copied range: those of its runs, clipped to its rows.
// Follows arrow-data 60.1.0 src/transform/run.rs, Apache-2.0; see NOTICE.
ghost use Rattle.std.specs.Prelude.{◌≡◌, ◌+◌, ◌*◌, ◌-◌, ◌/◌, ◌^◌, ◌≤◌, ◌<◌, length};
ghost use Rattle.number.specs.Number.{splice};
ghost use Rattle.run_ends.specs.Clip.{clip, clipped};

use crate::{LogicalRow, PhysicalRun};
use number::Unsigned;

// How many rows of start .. end - 1 stand before the run end x.
fn clip_end(x: LogicalRow, start: LogicalRow, end: LogicalRow) -> u64
    ensures { result ≡ clip x.0 start.0 end.0 }
{
    x.0.min(end.0).saturating_sub(start.0)
}

// Writes m run ends into room at `at`: those of body at `from`, clipped to the rows start .. end - 1, after the run end `last`.
pub fn extend_run_ends<N: Unsigned>(
    room: &mut [u8],
    at: usize,
    body: &[u8],
    from: usize,
    m: usize,
    start: LogicalRow,
    end: LogicalRow,
    last: u64,
)
    requires m_in_bounds { at + N.SIZE * m ≤ length room.old }
    requires m_in_bounds_2 { from + N.SIZE * m ≤ length body.now }
    requires start_bound { last + (end.0 - start.0) < 256 ^ N.SIZE / 2 }
    ensures { room.new ≡ splice at (clipped N.SIZE body.now from m start.0 end.0 last) room.old }
{
    for k in 0..m {
        let x = clip_end(crate::run_end::<N>(body, from, PhysicalRun(k)), start, end);
        N::truncate(last + x).write(room, at + N::SIZE * k);
    }
}
