// Vectors of rows: leaves at each format, first of a column with an offset, NaNs and zeros by their bits, views, and runs (K1).
ghost use Rattle.std.specs.Prelude.{◌+◌, ◌≤◌, length};

use number::Signed;
use run_ends::RunRow;
use slot_reader::leaf_row::Leaf;
use slot_reader::run::ColumnRow;
use slot_reader::view::Place;
use slot_reader::{run, view};
use std::io;

fn word(rt: &impl Print, s: &[u8]) -> io::Result<()> {
    rt.write_all(s)?;
    rt.write_all(b" ")
}

fn line(rt: &impl Print) -> io::Result<()> {
    rt.write_all(b"\n")
}

fn put(rt: &impl Print, x: u64) -> io::Result<()> {
    print!(rt; "{x} ")
}

// A whole number by its pattern of 64 bits.
fn put_signed(rt: &impl Print, z: i64) -> io::Result<()> {
    let p = z.pattern();
    if p < 0x8000_0000_0000_0000 {
        put(rt, p)?;
    } else {
        rt.write_all(b"-")?;
        put(rt, u64::MAX - p + 1)?;
    }
    Ok(())
}

fn put_bits(rt: &impl Print, kind: &[u8], bits: u64, digits: usize) -> io::Result<()> {
    rt.write_all(kind)?;
    print!(rt; ":{bits:0digits$x} ")
}

// The bits of a float; 0 where it is a NaN, which no Single or Double of a reading is.
fn single_bits(x: f32) -> u32 {
    if x != x { 0 } else { f32::to_bits(x) }
}

fn double_bits(x: f64) -> u64 {
    if x != x { 0 } else { f64::to_bits(x) }
}

fn put_leaf(rt: &impl Print, l: Leaf) -> io::Result<()> {
    match l {
        Leaf::Null => {
            word(rt, b"null")?;
        }
        Leaf::Signed(z) => {
            put_signed(rt, z)?;
        }
        Leaf::Unsigned(n) => {
            put(rt, n)?;
        }
        Leaf::Single(x) => {
            put_bits(rt, b"f32", single_bits(x) as u64, 8)?;
        }
        Leaf::Double(x) => {
            put_bits(rt, b"f64", double_bits(x), 16)?;
        }
        Leaf::SingleNan(b) => {
            put_bits(rt, b"nan", b as u64, 8)?;
        }
        Leaf::DoubleNan(b) => {
            put_bits(rt, b"nan", b, 16)?;
        }
    }
    Ok(())
}

// c C s S of entry `at`, which is 1 for row 0 of a column with offset 1.
fn narrow(rt: &impl Print, body: &[u8], at: usize) -> io::Result<()>
    requires { (at ≤ 1) × (16 ≤ length body.now) }
{
    word(rt, b"c C s S:")?;
    put_leaf(rt, slot_reader::leaf_row::read_leaf(body, at, 1))?;
    put_leaf(rt, slot_reader::leaf_row::read_leaf(body, at, 2))?;
    put_leaf(rt, slot_reader::leaf_row::read_leaf(body, 2 * at, 3))?;
    put_leaf(rt, slot_reader::leaf_row::read_leaf(body, 2 * at, 4))?;
    line(rt)
}

// i I f
fn middle(rt: &impl Print, body: &[u8], at: usize) -> io::Result<()>
    requires { (at ≤ 1) × (16 ≤ length body.now) }
{
    word(rt, b"i I f:")?;
    put_leaf(rt, slot_reader::leaf_row::read_leaf(body, 4 * at, 5))?;
    put_leaf(rt, slot_reader::leaf_row::read_leaf(body, 4 * at, 6))?;
    put_leaf(rt, slot_reader::leaf_row::read_leaf(body, 4 * at, 9))?;
    line(rt)
}

// l L g
fn wide(rt: &impl Print, body: &[u8], at: usize) -> io::Result<()>
    requires { (at ≤ 1) × (16 ≤ length body.now) }
{
    word(rt, b"l L g:")?;
    put_leaf(rt, slot_reader::leaf_row::read_leaf(body, 8 * at, 7))?;
    put_leaf(rt, slot_reader::leaf_row::read_leaf(body, 8 * at, 8))?;
    put_leaf(rt, slot_reader::leaf_row::read_leaf(body, 8 * at, 10))?;
    line(rt)
}

// Row 0 of a column with offset 1, and of one with offset 0, at each format.
fn formats(rt: &impl Print) -> io::Result<()> {
    let body = [
        0x7fu8, 0x80, 0xff, 0xfe, 0x00, 0x00, 0x80, 0xbf, 0x18, 0x2d, 0x44, 0x54, 0xfb, 0x21, 0x09,
        0xc0,
    ];
    narrow(rt, &body, 1)?;
    middle(rt, &body, 1)?;
    wide(rt, &body, 1)?;
    narrow(rt, &body, 0)?;
    middle(rt, &body, 0)?;
    wide(rt, &body, 0)
}

fn put_same(rt: &impl Print, a: Leaf, b: Leaf) -> io::Result<()> {
    if slot_reader::leaf_row::same_leaf(a, b) {
        word(rt, b"same")?;
    } else {
        word(rt, b"other")?;
    }
    Ok(())
}

// Two f32 that stand one behind the other, and whether they are the same row; the same of each with itself.
fn pair_f32(rt: &impl Print, body: &[u8]) -> io::Result<()>
    requires { 8 ≤ length body.now }
{
    let a = slot_reader::leaf_row::read_leaf(body, 0, 9);
    let b = slot_reader::leaf_row::read_leaf(body, 4, 9);
    put_leaf(rt, a)?;
    put_leaf(rt, b)?;
    put_same(rt, a, b)?;
    put_same(rt, a, a)?;
    put_same(rt, b, b)?;
    line(rt)
}

fn pair_f64(rt: &impl Print, body: &[u8]) -> io::Result<()>
    requires { 16 ≤ length body.now }
{
    let a = slot_reader::leaf_row::read_leaf(body, 0, 10);
    let b = slot_reader::leaf_row::read_leaf(body, 8, 10);
    put_leaf(rt, a)?;
    put_leaf(rt, b)?;
    put_same(rt, a, b)?;
    put_same(rt, a, a)?;
    put_same(rt, b, b)?;
    line(rt)
}

// NaNs with payloads, an infinity, 0.0 and -0.0.
fn floats(rt: &impl Print) -> io::Result<()> {
    pair_f32(rt, &[0x01, 0x00, 0x80, 0x7f, 0x02, 0x00, 0x80, 0x7f])?;
    pair_f32(rt, &[0x45, 0x23, 0xc1, 0xff, 0x00, 0x00, 0xc0, 0x7f])?;
    pair_f32(rt, &[0x00, 0x00, 0x80, 0x7f, 0x00, 0x00, 0x80, 0xff])?;
    pair_f32(rt, &[0x00, 0x00, 0x00, 0x00, 0x00, 0x00, 0x00, 0x80])?;
    pair_f64(
        rt,
        &[
            0x01, 0, 0, 0, 0, 0, 0xf0, 0x7f, 0x01, 0, 0, 0, 0, 0, 0xf8, 0xff,
        ],
    )?;
    pair_f64(rt, &[0, 0, 0, 0, 0, 0, 0, 0, 0, 0, 0, 0, 0, 0, 0, 0x80])
}

// Leaves of two formats: a whole number is the same at each; null is the same as null only.
fn others(rt: &impl Print) -> io::Result<()> {
    put_same(rt, Leaf::Signed(5), Leaf::Unsigned(5))?;
    put_same(rt, Leaf::Signed(-6), Leaf::Unsigned(5))?;
    put_same(
        rt,
        Leaf::SingleNan(0x7fc0_0000),
        Leaf::DoubleNan(0x7fc0_0000),
    )?;
    put_same(rt, Leaf::Null, Leaf::Null)?;
    put_same(rt, Leaf::Null, Leaf::Unsigned(0))?;
    line(rt)
}

fn put_place(rt: &impl Print, p: Place) -> io::Result<()> {
    match p {
        Place::Inline { at, len } => {
            word(rt, b"inline")?;
            put(rt, at as u64)?;
            put(rt, len as u64)?;
        }
        Place::Data { at, len } => {
            word(rt, b"data")?;
            put(rt, at as u64)?;
            put(rt, len as u64)?;
        }
        Place::Outside => {
            word(rt, b"outside")?;
        }
    }
    Ok(())
}

// The view at `at`: its place and its bytes.
fn put_view<'a>(
    rt: &impl Print,
    views: &'a [u8],
    at: usize,
    body: &'a [u8],
    from: usize,
    size: usize,
) -> io::Result<()>
    requires { at + 16 ≤ length views.now }
{
    put_place(rt, view::view_place(views, at, body, from, size))?;
    rt.write_all(b"'")?;
    rt.write_all(view::view_bytes(views, at, body, from, size))?;
    rt.write_all(b"'\n")
}

// Views of the lengths 0, 4, 12 and 13; the last in a data buffer of 20 bytes, of 15, and in one that does not lie in the body.
fn views(rt: &impl Print) -> io::Result<()> {
    let views =
        b"\x00\x00\x00\x00............\x04\x00\x00\x00vans........\x0c\x00\x00\x00twelve bytes\x0d\x00\x00\x00thir\x00\x00\x00\x00\x03\x00\x00\x00";
    let body = b"..---thirteen byte--__";
    put_view(rt, views, 0, body, 2, 20)?;
    put_view(rt, views, 16, body, 2, 20)?;
    put_view(rt, views, 32, body, 2, 20)?;
    put_view(rt, views, 48, body, 2, 20)?;
    put_view(rt, views, 48, body, 2, 15)?;
    put_view(rt, views, 48, body, 3, 20)
}

fn put_run(rt: &impl Print, r: Result<RunRow, u8>) -> io::Result<()> {
    match r {
        Ok(RunRow { run, left }) => {
            let k = run.0;
            put(rt, k as u64)?;
            rt.write_all(b"x ")?;
            put(rt, left)?;
        }
        Err(g) => {
            word(rt, b"refused")?;
            put(rt, g as u64)?;
        }
    }
    Ok(())
}

// The runs of the rows 0 to 8.
fn rows(rt: &impl Print, ends: &[u8], offset: u64, len: u64, width: u8) -> io::Result<()> {
    for row in 0u64..9 {
        put_run(rt, run::run_at(ends, offset, len, width, ColumnRow(row)))?;
    }
    line(rt)
}

// K1's run ends 2, 5, 9 with offset 1 and length 8, at each width; then length 6, length 3, a width that run ends do not have, too many rows, a sum that does not fit.
fn runs(rt: &impl Print) -> io::Result<()> {
    rows(rt, &[2, 0, 5, 0, 9, 0], 1, 8, 2)?;
    let ends = [2u8, 0, 0, 0, 5, 0, 0, 0, 9, 0, 0, 0];
    rows(rt, &ends, 1, 8, 4)?;
    rows(
        rt,
        &[
            2, 0, 0, 0, 0, 0, 0, 0, 5, 0, 0, 0, 0, 0, 0, 0, 9, 0, 0, 0, 0, 0, 0, 0,
        ],
        1,
        8,
        8,
    )?;
    rows(rt, &ends, 1, 6, 4)?;
    rows(rt, &ends, 1, 3, 4)?;
    rows(rt, &ends, 1, 8, 3)?;
    rows(rt, &ends, 4, 9, 4)?;
    rows(rt, &ends, u64::MAX, 1, 4)
}

pub fn all(rt: &impl Print) -> io::Result<()> {
    formats(rt)?;
    floats(rt)?;
    others(rt)?;
    views(rt)?;
    runs(rt)
}
