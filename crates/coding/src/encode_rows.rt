// Rows into runs: only the last row of a run is written. A loop for each width, with validity and without.
ghost use Rattle.std.specs.Prelude.{◌≡◌, true, false, ◌+◌, ◌*◌, ◌-◌, ◌≤◌, ◌<◌, ◌^◌, length};
ghost use Rattle.clauses.specs.Slices.{was, left};
ghost use Rattle.aggregates.specs.patterns.Parts.{Sized};
ghost use Rattle.anew.specs.runs.Runs.{those};
ghost use Rattle.coding.specs.run_coding.Rows.{Held, change_in, last_rows};
ghost use Rattle.coding.specs.run_coding.Writes.{Fits, run_written, runs_written};

use crate::run_coding::{Slots, Spots};
use number::Unsigned;

// After how many of the m rows the next one reads differently.
fn count_changes<N: Unsigned>(body: &[u8], masked: bool, s: Slots, m: usize) -> u64
    requires { (1 ≤ m) × Held body.now N.SIZE masked s.start s.mask s.bit m }
    ensures { result ≡ length (those (change_in (was body) N.SIZE masked s.start s.mask s.bit) 0 (m - 1)) }
{
    let mut k = 0u64;
    let mut a = crate::run_coding::is_valid(body, masked, s, 0);
    for r in 1..m {
        let b = crate::run_coding::is_valid(body, masked, s, r);
        let x = crate::run_coding::number_at::<N>(body, s, r - 1);
        let y = crate::run_coding::number_at::<N>(body, s, r);
        if crate::run_coding::is_change(a, b, x, y) {
            k += 1;
        }
        a = b;
    }
    k
}

// The same; a loop for each width.
fn count_by(body: &[u8], w: u8, masked: bool, s: Slots, m: usize) -> u64
    requires { (1 ≤ m) × Held body.now w masked s.start s.mask s.bit m }
    ensures { result ≡ length (those (change_in (was body) w masked s.start s.mask s.bit) 0 (m - 1)) }
{
    if masked {
        return match w {
            1 => count_changes::<u8>(body, true, s, m),
            2 => count_changes::<u16>(body, true, s, m),
            4 => count_changes::<u32>(body, true, s, m),
            _ => count_changes::<u64>(body, true, s, m),
        };
    }
    match w {
        1 => count_changes::<u8>(body, false, s, m),
        2 => count_changes::<u16>(body, false, s, m),
        4 => count_changes::<u32>(body, false, s, m),
        _ => count_changes::<u64>(body, false, s, m),
    }
}

// HOW MANY RUNS the m rows are.
pub fn count_runs(body: &[u8], w: u8, masked: bool, s: Slots, m: usize) -> u64
    requires { Held body.now w masked s.start s.mask s.bit m }
    ensures { result ≡ length (last_rows (was body) w masked s.start s.mask s.bit m) }
{
    if m == 0 {
        return 0;
    }
    1 + count_by(body, w, masked, s, m)
}

// Run k, which ends behind row r: its end of e bytes, its value, and its bit.
fn write_run<N: Unsigned>(
    room: &mut [u8],
    masked: bool,
    e: u8,
    t: Spots,
    k: usize,
    r: usize,
    valid: bool,
    x: u64,
)
    requires { Sized e × Fits N.SIZE masked e t.ends t.values t.mask (length room.old) (k + 1) × (r < 2 ^ 63) }
    ensures { room.new ≡ run_written N.SIZE masked e t.ends t.values t.mask k r valid x room.old }
{
    crate::run_coding::write_entry(room, t.ends + k * (e as usize), e, (r + 1) as u64);
    crate::run_coding::write_number::<N>(
        room,
        t.values + k * N::SIZE,
        crate::run_coding::cell_of(valid, x),
    );
    if masked {
        crate::run_coding::write_bits(room, t.mask, k, 1, valid);
    }
}

// The runs of m rows, and how many they are.
#[inline(always)]
fn write_each<N: Unsigned>(
    room: &mut [u8],
    body: &[u8],
    masked: bool,
    s: Slots,
    e: u8,
    t: Spots,
    m: usize,
) -> u64
    requires le_m { (1 ≤ m) × (m < 2 ^ 63) × Sized e × Held body.now N.SIZE masked s.start s.mask s.bit m }
    requires fits { Fits N.SIZE masked e t.ends t.values t.mask (length room.old) (length (last_rows body.now N.SIZE masked s.start s.mask s.bit m)) }
    ensures room_value { room.new ≡ runs_written (was body) N.SIZE masked s.start s.mask s.bit e t.ends t.values t.mask 0 (last_rows (was body) N.SIZE masked s.start s.mask s.bit m) room.old }
    ensures value { result ≡ length (last_rows (was body) N.SIZE masked s.start s.mask s.bit m) }
{
    let mut k = 0;
    let mut a = crate::run_coding::is_valid(body, masked, s, 0);
    let mut x = crate::run_coding::number_at::<N>(body, s, 0);
    for r in 0..m - 1 {
        let b = crate::run_coding::is_valid(body, masked, s, r + 1);
        let y = crate::run_coding::number_at::<N>(body, s, r + 1);
        if crate::run_coding::is_change(a, b, x, y) {
            write_run::<N>(room, masked, e, t, k, r, a, x);
            k += 1;
        }
        a = b;
        x = y;
    }
    write_run::<N>(room, masked, e, t, k, m - 1, a, x);
    (k + 1) as u64
}

// The same with validity. A function of its own, so that the loop has all registers.
#[inline(never)]
fn write_masked<N: Unsigned>(
    room: &mut [u8],
    body: &[u8],
    s: Slots,
    e: u8,
    t: Spots,
    m: usize,
) -> u64
    requires le_m { (1 ≤ m) × (m < 2 ^ 63) × Sized e × Held body.now N.SIZE true s.start s.mask s.bit m }
    requires fits { Fits N.SIZE true e t.ends t.values t.mask (length room.old) (length (last_rows body.now N.SIZE true s.start s.mask s.bit m)) }
    ensures room_value { room.new ≡ runs_written (was body) N.SIZE true s.start s.mask s.bit e t.ends t.values t.mask 0 (last_rows (was body) N.SIZE true s.start s.mask s.bit m) room.old }
    ensures value { result ≡ length (last_rows (was body) N.SIZE true s.start s.mask s.bit m) }
{
    write_each::<N>(room, body, true, s, e, t, m)
}

// The same without, likewise.
#[inline(never)]
fn write_plain<N: Unsigned>(
    room: &mut [u8],
    body: &[u8],
    s: Slots,
    e: u8,
    t: Spots,
    m: usize,
) -> u64
    requires le_m { (1 ≤ m) × (m < 2 ^ 63) × Sized e × Held body.now N.SIZE false s.start s.mask s.bit m }
    requires fits { Fits N.SIZE false e t.ends t.values t.mask (length room.old) (length (last_rows body.now N.SIZE false s.start s.mask s.bit m)) }
    ensures room_value { room.new ≡ runs_written (was body) N.SIZE false s.start s.mask s.bit e t.ends t.values t.mask 0 (last_rows (was body) N.SIZE false s.start s.mask s.bit m) room.old }
    ensures value { result ≡ length (last_rows (was body) N.SIZE false s.start s.mask s.bit m) }
{
    write_each::<N>(room, body, false, s, e, t, m)
}

// THE RUNS of m rows, and how many they are; a loop for each width, with validity and without.
pub fn write_runs(
    room: &mut [u8],
    body: &[u8],
    w: u8,
    masked: bool,
    s: Slots,
    e: u8,
    t: Spots,
    m: usize,
) -> u64
    requires m_bound { (m < 2 ^ 63) × Sized e × Held body.now w masked s.start s.mask s.bit m }
    requires fits { Fits w masked e t.ends t.values t.mask (length room.old) (length (last_rows body.now w masked s.start s.mask s.bit m)) }
    ensures room_value { room.new ≡ runs_written (was body) w masked s.start s.mask s.bit e t.ends t.values t.mask 0 (last_rows (was body) w masked s.start s.mask s.bit m) room.old }
    ensures value { result ≡ length (last_rows (was body) w masked s.start s.mask s.bit m) }
{
    if m == 0 {
        return 0;
    }
    if masked {
        return match w {
            1 => write_masked::<u8>(room, body, s, e, t, m),
            2 => write_masked::<u16>(room, body, s, e, t, m),
            4 => write_masked::<u32>(room, body, s, e, t, m),
            _ => write_masked::<u64>(room, body, s, e, t, m),
        };
    }
    match w {
        1 => write_plain::<u8>(room, body, s, e, t, m),
        2 => write_plain::<u16>(room, body, s, e, t, m),
        4 => write_plain::<u32>(room, body, s, e, t, m),
        _ => write_plain::<u64>(room, body, s, e, t, m),
    }
}
