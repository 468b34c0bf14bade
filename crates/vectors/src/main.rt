// What the leaves do on given numbers and bytes, line by line; `stdout` has what is due.
#![tactic(auto)]

mod bitmaps;
mod leaves;
mod names;
mod rows;
mod runs;

use std::io;

fn main(rt: HostRuntime) -> io::Result<()> {
    leaves::all(&rt)?;
    bitmaps::all(&rt)?;
    runs::all(&rt)?;
    names::all(&rt)?;
    rows::all(&rt)
}
