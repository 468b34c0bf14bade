// Runs into rows: each run's value is written as often as the range has rows of it. A loop for each width, with validity and without.
ghost use Rattle.std.specs.Prelude.{◌≡◌, false, ◌+◌, ◌*◌, ◌-◌, ◌≤◌, ◌<◌, min, length};
ghost use Rattle.clauses.specs.Slices.{was, left};
ghost use Rattle.number.specs.Number.{splice};
ghost use Rattle.utils.specs.Offsets.{repeated};
ghost use Rattle.coding.specs.run_coding.Rows.{Held};
ghost use Rattle.coding.specs.run_coding.Writes.{Holds, rows_written, Ends, rows_from};

use crate::run_coding::{Slots, Spots};
use aggregates::patterns;
use number::Unsigned;

// The lowest bytes of v, as many as N has, n times.
fn fill<N: Unsigned>(room: &mut [u8], at: usize, n: usize, v: u64)
    requires { at + N.SIZE * n ≤ length room.old }
    ensures { room.new ≡ splice at (repeated N.SIZE v n) room.old }
{
    for i in 0..n {
        crate::run_coding::write_number::<N>(room, at + N::SIZE * i, v);
    }
}

// The same, four at a time: the first four, those behind them in blocks that begin at a multiple of four entries of 8 bytes, so that the
// compiler's stores stay within a line of the cache, and the last four. Blocks may lie over one another: no second loop is left.
fn fill_fours<N: Unsigned>(room: &mut [u8], at: usize, n: usize, v: u64)
    requires { at + N.SIZE * n ≤ length room.old }
    ensures { room.new ≡ splice at (repeated N.SIZE v n) room.old }
{
    if n < 4 {
        fill::<N>(room, at, n, v);
        return;
    }
    let last = n - 4;
    fill::<N>(room, at, 4, v);
    let mut i = 4 - at / 8 % 4;
    // By four entries, up to the last four.
    while i <= last {
        fill::<N>(room, at + N::SIZE * i, 4, v);
        i += 4;
    }
    fill::<N>(room, at + N::SIZE * last, 4, v);
}

// The same: four at a time where they have 8 bytes.
fn fill_by<N: Unsigned>(room: &mut [u8], at: usize, n: usize, v: u64)
    requires { at + N.SIZE * n ≤ length room.old }
    ensures { room.new ≡ splice at (repeated N.SIZE v n) room.old }
{
    if N::SIZE == 8 {
        fill_fours::<N>(room, at, n, v);
        return;
    }
    fill::<N>(room, at, n, v);
}

// n rows of one run from row r on: its value, and its bit.
fn write_run<N: Unsigned>(
    room: &mut [u8],
    masked: bool,
    t: Spots,
    r: usize,
    n: usize,
    valid: bool,
    x: u64,
)
    requires { Holds N.SIZE masked t.values t.mask (length room.old) (r + n) }
    ensures { room.new ≡ rows_written N.SIZE masked t.values t.mask r n valid x room.old }
{
    fill_by::<N>(
        room,
        t.values + r * N::SIZE,
        n,
        crate::run_coding::cell_of(valid, x),
    );
    if masked {
        crate::run_coding::write_bits(room, t.mask, r, n, valid);
    }
}

// m rows from run `run` on, whose first row is counted as x among the ends of e bytes from `ends` on.
#[inline(always)]
fn write_each<N: Unsigned>(
    room: &mut [u8],
    body: &[u8],
    masked: bool,
    s: Slots,
    e: u8,
    ends: usize,
    run: usize,
    x: u64,
    t: Spots,
    m: usize,
    count: usize,
)
    requires ends { Ends body.now e ends run x m count × Held body.now N.SIZE masked s.start s.mask s.bit count }
    requires holds { Holds N.SIZE masked t.values t.mask (length room.old) m }
    ensures { room.new ≡ rows_from (was body) N.SIZE masked s.start s.mask s.bit e ends x m t.values t.mask m 0 run room.old }
{
    let mut q = run;
    let mut r = 0;
    // By the rows of a run.
    while r < m {
        let end = patterns::read_pattern(body, ends + q * (e as usize), e);
        let next = (end - x).min(m as u64) as usize;
        let n = next - r;
        let valid = crate::run_coding::is_valid(body, masked, s, q);
        let v = crate::run_coding::number_at::<N>(body, s, q);
        write_run::<N>(room, masked, t, r, n, valid, v);
        q += 1;
        r = next;
    }
}

// The same without validity, for run ends of 4 bytes. A function of its own, so that the loop has all registers.
#[inline(never)]
fn write_plain<N: Unsigned>(
    room: &mut [u8],
    body: &[u8],
    s: Slots,
    ends: usize,
    run: usize,
    x: u64,
    t: Spots,
    m: usize,
    count: usize,
)
    requires ends { Ends body.now 4 ends run x m count × Held body.now N.SIZE false s.start s.mask s.bit count }
    requires holds { Holds N.SIZE false t.values t.mask (length room.old) m }
    ensures { room.new ≡ rows_from (was body) N.SIZE false s.start s.mask s.bit 4 ends x m t.values t.mask m 0 run room.old }
{
    write_each::<N>(room, body, false, s, 4, ends, run, x, t, m, count);
}

// THE ROWS of a range; a loop for each width, with validity and without, and then for run ends of 4 bytes.
pub fn write_rows(
    room: &mut [u8],
    body: &[u8],
    w: u8,
    masked: bool,
    s: Slots,
    e: u8,
    ends: usize,
    run: usize,
    x: u64,
    t: Spots,
    m: usize,
    count: usize,
)
    requires ends { Ends body.now e ends run x m count × Held body.now w masked s.start s.mask s.bit count }
    requires holds { Holds w masked t.values t.mask (length room.old) m }
    ensures { room.new ≡ rows_from (was body) w masked s.start s.mask s.bit e ends x m t.values t.mask m 0 run room.old }
{
    if masked {
        match w {
            1 => write_each::<u8>(room, body, true, s, e, ends, run, x, t, m, count),
            2 => write_each::<u16>(room, body, true, s, e, ends, run, x, t, m, count),
            4 => write_each::<u32>(room, body, true, s, e, ends, run, x, t, m, count),
            _ => write_each::<u64>(room, body, true, s, e, ends, run, x, t, m, count),
        }
        return;
    }
    if e == 4 {
        match w {
            1 => write_plain::<u8>(room, body, s, ends, run, x, t, m, count),
            2 => write_plain::<u16>(room, body, s, ends, run, x, t, m, count),
            4 => write_plain::<u32>(room, body, s, ends, run, x, t, m, count),
            _ => write_plain::<u64>(room, body, s, ends, run, x, t, m, count),
        }
        return;
    }
    match w {
        1 => write_each::<u8>(room, body, false, s, e, ends, run, x, t, m, count),
        2 => write_each::<u16>(room, body, false, s, e, ends, run, x, t, m, count),
        4 => write_each::<u32>(room, body, false, s, e, ends, run, x, t, m, count),
        _ => write_each::<u64>(room, body, false, s, e, ends, run, x, t, m, count),
    }
}
