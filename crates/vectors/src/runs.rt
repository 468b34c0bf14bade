// Vectors of run ends: rows of the table (K1, K2, K4), and the run of each row with the rows left in it, at each width.
ghost use Rattle.std.specs.Prelude.{◌≡◌, ◌+◌, ◌-◌, ◌*◌, ◌/◌, ◌^◌, ◌<◌, ◌≤◌, true, length};

use number::Unsigned;
use run_ends::{LogicalRow, PhysicalRun, RunRow, copies};
use std::io;

// A number and a blank.
fn put(rt: &impl Print, x: u64) -> io::Result<()> {
    print!(rt; "{x} ")
}

// A run and the rows left in it, or that the row is past.
fn put_found(rt: &impl Print, found: Option<RunRow>) -> io::Result<()> {
    match found {
        Some(RunRow { run, left }) => {
            put(rt, run.0 as u64)?;
            put(rt, left)
        }
        None => rt.write_all(b"past "),
    }
}

fn line(rt: &impl Print) -> io::Result<()> {
    rt.write_all(b"\n")
}

// Whether n rows fit behind the run end `last`.
fn fits(last: u64, n: u64, most: u64) -> bool
    ensures { result ≡ true → last + n ≤ most }
{
    last <= most && n <= most - last
}

// The first m run ends.
fn put_ends<N: Unsigned>(rt: &impl Print, ends: &[u8], m: usize) -> io::Result<()>
    requires { N.SIZE * m ≤ length ends.now }
{
    for k in 0..m {
        put(rt, run_ends::run_end::<N>(ends, 0, PhysicalRun(k)).0)?;
    }
    Ok(())
}

// Writes the run ends of m runs from `first` on, and prints them.
fn clip<N: Unsigned>(
    rt: &impl Print,
    ends: &[u8],
    first: PhysicalRun,
    m: usize,
    start: LogicalRow,
    end: LogicalRow,
    last: u64,
) -> io::Result<()>
    requires m_in_bounds { N.SIZE * first.0 + N.SIZE * m ≤ length ends.now }
    requires start_bound { last + (end.0 - start.0) < 256 ^ N.SIZE / 2 }
{
    let mut room = [0u8; 64];
    if m <= 8 {
        copies::extend_run_ends::<N>(&mut room, 0, ends, N::SIZE * first.0, m, start, end, last);
        put_ends::<N>(rt, &room, m)?;
    }
    Ok(())
}

// A copy of the rows start .. end - 1 behind the run end `last`: its runs, and its run ends or that they do not fit: `most` is the largest.
fn copy<N: Unsigned>(
    rt: &impl Print,
    ends: &[u8],
    n: usize,
    start: LogicalRow,
    end: LogicalRow,
    last: u64,
    most: u64,
) -> io::Result<()>
    requires n { N.SIZE * n ≤ length ends.now }
    requires most { most < 256 ^ N.SIZE / 2 }
{
    match run_ends::runs_of_range::<N>(ends, 0, n, start, end) {
        Some(runs) => {
            put(rt, runs.first.0 as u64)?;
            put(rt, runs.count as u64)?;
            if fits(last, end.0 - start.0, most) {
                clip::<N>(rt, ends, runs.first, runs.count, start, end, last)?;
            } else {
                rt.write_all(b"over ")?;
            }
        }
        None => rt.write_all(b"none ")?,
    }
    line(rt)
}

// Copies from the run ends 2, 5, 9: K1, K2, one and two rows behind the last run end but one, and rows past the last run.
fn copies<N: Unsigned>(rt: &impl Print, ends: &[u8], most: u64) -> io::Result<()>
    requires three { N.SIZE * 3 ≤ length ends.now }
    requires most { (1 ≤ most) × (most < 256 ^ N.SIZE / 2) }
{
    copy::<N>(rt, ends, 3, LogicalRow(2), LogicalRow(6), 0, most)?;
    copy::<N>(rt, ends, 3, LogicalRow(2), LogicalRow(6), 4, most)?;
    copy::<N>(rt, ends, 3, LogicalRow(0), LogicalRow(1), most - 1, most)?;
    copy::<N>(rt, ends, 3, LogicalRow(0), LogicalRow(2), most - 1, most)?;
    copy::<N>(rt, ends, 3, LogicalRow(8), LogicalRow(10), 0, most)
}

// The runs of the rows 0 to 9 among the first n, and the rows left in them before `last`.
fn finds<N: Unsigned>(rt: &impl Print, ends: &[u8], n: usize, last: u64) -> io::Result<()>
    requires { N.SIZE * n ≤ length ends.now }
{
    for row in 0u64..10 {
        put_found(
            rt,
            run_ends::find_run::<N>(ends, 0, n, LogicalRow(row), LogicalRow(last)),
        )?;
    }
    line(rt)
}

// The vectors of one width, from the run ends 2, 5, 9; `most` is the largest.
fn all_of<N: Unsigned>(rt: &impl Print, ends: &[u8], most: u64) -> io::Result<()>
    requires three { N.SIZE * 3 ≤ length ends.now }
    requires most { (1 ≤ most) × (most < 256 ^ N.SIZE / 2) }
{
    copies::<N>(rt, ends, most)?;
    finds::<N>(rt, ends, 3, 9)?;
    finds::<N>(rt, ends, 3, 7)?;
    finds::<N>(rt, ends, 0, 9)
}

pub fn all(rt: &impl Print) -> io::Result<()> {
    let two: [u8; 6] = [2, 0, 5, 0, 9, 0];
    let four: [u8; 12] = [2, 0, 0, 0, 5, 0, 0, 0, 9, 0, 0, 0];
    let eight: [u8; 24] = [
        2, 0, 0, 0, 0, 0, 0, 0, 5, 0, 0, 0, 0, 0, 0, 0, 9, 0, 0, 0, 0, 0, 0, 0,
    ];
    all_of::<u16>(rt, &two, 32767)?;
    all_of::<u32>(rt, &four, 2147483647)?;
    all_of::<u64>(rt, &eight, 9223372036854775807)
}
