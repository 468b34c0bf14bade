// Vectors of format strings: each line has a text, its code, the bytes of an entry, the ids of a union or `bad`, and the array of ids.
use schema::union_ids;
use std::io;

fn wide(x: u8) -> u64 {
    x as u64
}

fn put(rt: &impl Print, x: u64) -> io::Result<()> {
    print!(rt; " {x}")
}

// The array of ids, whole.
fn put_all(rt: &impl Print, ids: &[u8; 16]) -> io::Result<()> {
    rt.write_all(b" :")?;
    for x in ids {
        put(rt, wide(*x))?;
    }
    Ok(())
}

// What a union's format says of its fields; the array is 255 where nothing is written.
fn put_ids(rt: &impl Print, s: &[u8], at: usize, len: usize) -> io::Result<()> {
    let mut ids = [255u8; 16];
    match union_ids::union_ids(s, at, len, &mut ids) {
        Some(k) => {
            put(rt, wide(k))?;
        }
        None => {
            rt.write_all(b" bad")?;
        }
    }
    put_all(rt, &ids)
}

fn put_code(rt: &impl Print, s: &[u8], at: usize, len: usize) -> io::Result<()> {
    let code = schema::formats::format_code(s, at, len);
    put(rt, wide(code))?;
    put(rt, wide(schema::formats::width_of(code)))?;
    if schema::formats::is_union(code) {
        put_ids(rt, s, at, len)?;
    }
    rt.write_all(b"\n")
}

// A text by itself.
fn format(rt: &impl Print, s: &[u8]) -> io::Result<()> {
    rt.write_all(s)?;
    put_code(rt, s, 0, s.len())
}

// A range of a text.
fn range(rt: &impl Print, s: &[u8], at: usize, len: usize) -> io::Result<()> {
    rt.write_all(s)?;
    put(rt, at as u64)?;
    put(rt, len as u64)?;
    put_code(rt, s, at, len)
}

fn put_same(rt: &impl Print, same: bool) -> io::Result<()> {
    if same {
        rt.write_all(b" same\n")?;
    } else {
        rt.write_all(b" differ\n")?;
    }
    Ok(())
}

// Two ranges of a text.
fn same(
    rt: &impl Print,
    s: &[u8],
    at: usize,
    len: usize,
    at2: usize,
    len2: usize,
) -> io::Result<()> {
    rt.write_all(s)?;
    put(rt, at as u64)?;
    put(rt, len as u64)?;
    put(rt, at2 as u64)?;
    put(rt, len2 as u64)?;
    put_same(rt, union_ids::same_format(s, at, len, at2, len2))
}

fn plain(rt: &impl Print) -> io::Result<()> {
    format(rt, b"c")?;
    format(rt, b"C")?;
    format(rt, b"s")?;
    format(rt, b"S")?;
    format(rt, b"i")?;
    format(rt, b"I")?;
    format(rt, b"l")?;
    format(rt, b"L")?;
    format(rt, b"f")?;
    format(rt, b"g")?;
    format(rt, b"z")?;
    format(rt, b"u")?;
    format(rt, b"Z")?;
    format(rt, b"U")?;
    format(rt, b"vz")?;
    format(rt, b"vu")?;
    format(rt, b"+vl")?;
    format(rt, b"+vL")?;
    format(rt, b"+l")?;
    format(rt, b"+L")?;
    format(rt, b"+r")
}

fn unions(rt: &impl Print) -> io::Result<()> {
    // K12; no field; the least and the largest id.
    format(rt, b"+ud:5,7")?;
    format(rt, b"+us:")?;
    format(rt, b"+us:0,127")?;
    format(rt, b"+us:007,7,1")?;
    format(rt, b"+us:007,8,1")?;
    // Sixteen ids and seventeen.
    format(rt, b"+ud:0,1,2,3,4,5,6,7,8,9,10,11,12,13,14,15")?;
    format(rt, b"+ud:0,1,2,3,4,5,6,7,8,9,10,11,12,13,14,15,16")?;
    // Too large, twice, none between commas, at an end, no digits, four digits.
    format(rt, b"+us:128")?;
    format(rt, b"+us:1,1")?;
    format(rt, b"+us:1,,2")?;
    format(rt, b"+us:,1")?;
    format(rt, b"+us:1,")?;
    format(rt, b"+us:,")?;
    format(rt, b"+us:1 ,2")?;
    format(rt, b"+us:-1")?;
    format(rt, b"+us:a")?;
    format(rt, b"+us:0001")
}

fn others(rt: &impl Print) -> io::Result<()> {
    // Formats that are not ported, and texts that are none.
    format(rt, b"b")?;
    format(rt, b"n")?;
    format(rt, b"+lx")?;
    format(rt, b"+s")?;
    format(rt, b"+us")?;
    format(rt, b"+uz:1")?;
    format(rt, b"+vlx")?;
    format(rt, b"vzz")?;
    format(rt, b"")
}

fn ranges(rt: &impl Print) -> io::Result<()> {
    range(rt, b"cuZ+ud:5,7+r", 3, 7)?;
    range(rt, b"cuZ+ud:5,7+r", 1, 1)?;
    range(rt, b"cuZ+ud:5,7+r", 10, 2)?;
    range(rt, b"cuZ+ud:5,7+r", 10, 3)?;
    range(rt, b"cuZ+ud:5,7+r", 12, 0)?;
    range(rt, b"cuZ+ud:5,7+r", 13, 0)?;
    range(rt, b"cuZ+ud:5,7+r", 11, 18446744073709551615)?;
    same(rt, b"iilI", 0, 1, 1, 1)?;
    same(rt, b"iilI", 1, 1, 2, 1)?;
    same(rt, b"iilI", 1, 1, 3, 1)?;
    same(rt, b"bb", 0, 1, 1, 1)?;
    same(rt, b"+ud:5,7+ud:05,007", 0, 7, 7, 10)?;
    same(rt, b"+ud:5,7+ud:7,5", 0, 7, 7, 7)?;
    same(rt, b"+ud:5,7+us:5,7", 0, 7, 7, 7)?;
    same(rt, b"+ud:5,7+ud:5", 0, 7, 7, 6)?;
    same(rt, b"+us:+us:", 0, 4, 4, 4)?;
    same(rt, b"+us:1,1+us:1,1", 0, 7, 7, 7)
}

pub fn all(rt: &impl Print) -> io::Result<()> {
    plain(rt)?;
    unions(rt)?;
    others(rt)?;
    ranges(rt)
}
