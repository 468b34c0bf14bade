// Runs the leaves on vectors of 01's table and on edges, and writes what they make.
ghost use Rattle.std.specs.Prelude.{◌+◌, ◌≤◌, length};

use number::Signed;
use std::io;

fn wide(x: u8) -> u64 {
    x as u64
}

fn wide16(x: u16) -> u64 {
    x as u64
}

fn wide32(x: u32) -> u64 {
    x as u64
}

fn place(x: usize) -> u64 {
    x as u64
}

// A number and a space.
fn put(rt: &impl Print, n: u64) -> io::Result<()> {
    print!(rt; "{n} ")
}

// The number that a pattern stands for, where patterns from half on stand for numbers below 0, and a space.
fn put_pattern(rt: &impl Print, p: u64, half: u64) -> io::Result<()> {
    if p < half {
        put(rt, p)?;
    } else {
        rt.write_all(b"-")?;
        put(rt, half.wrapping_add(half).wrapping_sub(p))?;
    }
    Ok(())
}

fn put_i8(rt: &impl Print, x: i8) -> io::Result<()> {
    put_pattern(rt, wide(x.pattern()), 128)
}

fn put_i16(rt: &impl Print, x: i16) -> io::Result<()> {
    put_pattern(rt, wide16(x.pattern()), 32768)
}

fn put_i32(rt: &impl Print, x: i32) -> io::Result<()> {
    put_pattern(rt, wide32(x.pattern()), 2147483648)
}

fn put_i64(rt: &impl Print, x: i64) -> io::Result<()> {
    put_pattern(rt, x.pattern(), 9223372036854775808)
}

fn end_line(rt: &impl Print) -> io::Result<()> {
    rt.write_all(b"\n")
}

// The bytes of s, in decimal.
fn put_bytes(rt: &impl Print, s: &[u8]) -> io::Result<()> {
    for x in s {
        put(rt, wide(*x))?;
    }
    end_line(rt)
}

// The n numbers of four bytes of s.
fn put_i32s(rt: &impl Print, s: &[u8], n: usize) -> io::Result<()>
    requires { n + n + n + n ≤ length s.now }
{
    for i in 0..n {
        put_i32(rt, i32::read(s, i + i + i + i))?;
    }
    end_line(rt)
}

fn put_extended(rt: &impl Print, e: utils::Extended) -> io::Result<()> {
    match e {
        utils::Extended::Fits { last, first } => {
            rt.write_all(b"fits, last, first: ")?;
            put(rt, last)?;
            put(rt, first)?;
        }
        utils::Extended::Over { row, needed } => {
            rt.write_all(b"6, row, needed: ")?;
            put(rt, place(row))?;
            put(rt, needed)?;
        }
        utils::Extended::Falls => {
            rt.write_all(b"falls ")?;
        }
    }
    end_line(rt)
}

// K5 and K6.
fn byte_strings(rt: &impl Print) -> io::Result<()> {
    let offsets = [0u8, 0, 0, 0, 3, 0, 0, 0, 3, 0, 0, 0, 7, 0, 0, 0];
    let mut room = [0u8; 16];
    let mut data = [0u8; 4];
    rt.write_all(b"K5: ")?;
    put_extended(rt, utils::try_offsets::<u32>(&offsets, 4, 2, 10))?;
    utils::extend_offsets::<u32>(&mut room, 0, &offsets, 4, 2, 10);
    number::copy::copy_bytes(&mut data, 0, b"vanstop", 3, 4);
    utils::repeat_offset::<u32>(&mut room, 8, 2, 14);
    rt.write_all(b"K5, K6: ")?;
    put_i32s(rt, &room, 4)?;
    rt.write_all(&data)?;
    end_line(rt)
}

// The same at eight bytes.
fn large_byte_strings(rt: &impl Print) -> io::Result<()> {
    let offsets =
        b"\x03\x00\x00\x00\x00\x00\x00\x00\x03\x00\x00\x00\x00\x00\x00\x00\x07\x00\x00\x00\x00\x00\x00\x00";
    let mut room = [0u8; 32];
    rt.write_all(b"K5 large: ")?;
    put_extended(rt, utils::try_offsets::<u64>(offsets, 0, 2, 10))?;
    utils::extend_offsets::<u64>(&mut room, 0, offsets, 0, 2, 10);
    utils::repeat_offset::<u64>(&mut room, 16, 2, 14);
    rt.write_all(b"K5, K6 large: ")?;
    put_bytes(rt, &room)
}

// The largest last offset, and one past it.
fn largest(rt: &impl Print) -> io::Result<()> {
    let offsets = [4u8, 0, 0, 0, 9, 0, 0, 0, 14, 0, 0, 0];
    let falling = [4u8, 0, 0, 0, 3, 0, 0, 0];
    rt.write_all(b"largest: ")?;
    put_extended(rt, utils::try_offsets::<u32>(&offsets, 0, 1, 2147483642))?;
    rt.write_all(b"one past: ")?;
    put_extended(rt, utils::try_offsets::<u32>(&offsets, 0, 1, 2147483643))?;
    rt.write_all(b"second row: ")?;
    put_extended(rt, utils::try_offsets::<u32>(&offsets, 0, 2, 2147483642))?;
    rt.write_all(b"falling: ")?;
    put_extended(rt, utils::try_offsets::<u32>(&falling, 0, 1, 0))
}

fn largest_large(rt: &impl Print) -> io::Result<()> {
    let offsets = b"\x04\x00\x00\x00\x00\x00\x00\x00\x09\x00\x00\x00\x00\x00\x00\x00";
    let above = b"\x00\x00\x00\x00\x00\x00\x00\x00\xff\xff\xff\xff\xff\xff\xff\xff";
    rt.write_all(b"largest, large: ")?;
    put_extended(
        rt,
        utils::try_offsets::<u64>(offsets, 0, 1, 9223372036854775802),
    )?;
    rt.write_all(b"one past, large: ")?;
    put_extended(
        rt,
        utils::try_offsets::<u64>(offsets, 0, 1, 9223372036854775803),
    )?;
    rt.write_all(b"needed is cut: ")?;
    put_extended(rt, utils::try_offsets::<u64>(above, 0, 1, 1))
}

// K7 and K10.
fn keys(rt: &impl Print) -> io::Result<()> {
    let body = [55u8, 250, 100, 0];
    let mut room = [0u8; 4];
    utils::primitive::extend_with_offset::<u8>(&mut room, 0, &body, 0, 2, 200);
    utils::primitive::extend_with_offset::<u8>(&mut room, 2, &body, 2, 1, 100);
    rt.write_all(b"K7, K10: ")?;
    put_bytes(rt, &room)?;
    rt.write_all(b"K10, signed: ")?;
    put_i8(rt, i8::read(&room, 2))?;
    utils::primitive::extend_with_offset_signed::<i8>(&mut room, 2, &body, 2, 1, 100);
    put_i8(rt, i8::read(&room, 2))?;
    end_line(rt)
}

// The smallest i16 plus -1, the largest i32 plus 1, and -5 plus 7.
fn signed_keys(rt: &impl Print) -> io::Result<()> {
    let body = b"\x00\x80\xff\xff\xff\x7f\xfb\xff\xff\xff\xff\xff\xff\xff";
    let mut room = [0u8; 14];
    utils::primitive::extend_with_offset_signed::<i16>(&mut room, 0, body, 0, 1, 65535);
    utils::primitive::extend_with_offset_signed::<i32>(&mut room, 2, body, 2, 1, 1);
    utils::primitive::extend_with_offset_signed::<i64>(&mut room, 6, body, 6, 1, 7);
    rt.write_all(b"signed keys: ")?;
    put_i16(rt, i16::read(&room, 0))?;
    put_i32(rt, i32::read(&room, 2))?;
    put_i64(rt, i64::read(&room, 6))?;
    end_line(rt)
}

fn wide_keys(rt: &impl Print) -> io::Result<()> {
    let body = [255u8, 255, 1, 0, 255, 255, 255, 255];
    let mut room = [0u8; 8];
    utils::primitive::extend_with_offset::<u16>(&mut room, 0, &body, 0, 2, 2);
    utils::primitive::extend_with_offset::<u32>(&mut room, 4, &body, 4, 1, 3);
    rt.write_all(b"wide keys: ")?;
    put_bytes(rt, &room)?;
    utils::primitive::extend_with_offset::<u64>(&mut room, 0, &body, 0, 1, 1);
    put_bytes(rt, &room)
}

// K15: lengths 12 and 13, five data buffers in earlier sources.
fn views(rt: &impl Print) -> io::Result<()> {
    let body = b"\x0c\x00\x00\x00abcdefghijkl\x0d\x00\x00\x00abcd\x02\x00\x00\x00\x07\x00\x00\x00";
    let mut room = [0u8; 32];
    utils::byte_view::extend_views(&mut room, 0, body, 0, 2, 5);
    rt.write_all(b"K15: ")?;
    put_bytes(rt, &room)?;
    let v = utils::byte_view::from_bytes(body, 16);
    let u = utils::byte_view::reindexed(v, 4294967295);
    rt.write_all(b"index wraps: ")?;
    put(rt, wide32(u.length))?;
    put(rt, wide32(u.buffer_index))?;
    put(rt, wide32(u.offset))?;
    end_line(rt)?;
    utils::byte_view::write_view(&mut room, 0, u);
    put_bytes(rt, &room)
}

fn signed(rt: &impl Print) -> io::Result<()> {
    let s = b"\x7f\x80\xff\xff\x00\x00\x00\x80\xff\xff\xff\xff\xff\xff\xff\x7f";
    rt.write_all(b"signed: ")?;
    put_i8(rt, i8::read(s, 0))?;
    put_i8(rt, i8::read(s, 1))?;
    put_i16(rt, i16::read(s, 0))?;
    put_i16(rt, i16::read(s, 2))?;
    put_i32(rt, i32::read(s, 4))?;
    put_i64(rt, i64::read(s, 0))?;
    put_i64(rt, i64::read(s, 8))?;
    end_line(rt)
}

fn nulls(rt: &impl Print) -> io::Result<()> {
    let mut room = [7u8; 12];
    number::copy::fill_zeros(&mut room, 2, 8);
    rt.write_all(b"nulls: ")?;
    put_bytes(rt, &room)?;
    number::copy::fill_bytes(&mut room, 0, 3, 9);
    utils::count_up_i32(&mut room, 4, 2, 4294967295);
    rt.write_all(b"filled, counted: ")?;
    put_bytes(rt, &room)
}

fn rooms(rt: &impl Print) -> io::Result<()> {
    rt.write_all(b"room of bits: ")?;
    put(rt, place(utils::bit_room(0)))?;
    put(rt, place(utils::bit_room(1)))?;
    put(rt, place(utils::bit_room(8)))?;
    put(rt, place(utils::bit_room(9)))?;
    put(rt, place(utils::bit_room(18446744073709551615)))?;
    end_line(rt)
}

// How many of the 1,500 bytes that were copied to place 3 are those of s from place 7 on.
fn agreeing(room: &[u8; 2048], s: &[u8; 2048]) -> u64 {
    let mut n = 0;
    for i in 0..1500 {
        if room[i + 3] == s[i + 7] {
            n += 1;
        }
    }
    n
}

// A copy of more than 1,024 bytes.
fn long(rt: &impl Print) -> io::Result<()> {
    let mut s = [0u8; 2048];
    let mut room = [0u8; 2048];
    for i in 0..2048 {
        s[i] = (i % 250) as u8;
    }
    number::copy::copy_bytes(&mut room, 3, &s, 7, 1500);
    rt.write_all(b"long: ")?;
    put(rt, agreeing(&room, &s))?;
    put(rt, wide(room[2]))?;
    put(rt, wide(room[3]))?;
    put(rt, wide(room[1502]))?;
    put(rt, wide(room[1503]))?;
    end_line(rt)
}

pub fn all(rt: &impl Print) -> io::Result<()> {
    byte_strings(rt)?;
    large_byte_strings(rt)?;
    largest(rt)?;
    largest_large(rt)?;
    keys(rt)?;
    signed_keys(rt)?;
    wide_keys(rt)?;
    views(rt)?;
    signed(rt)?;
    nulls(rt)?;
    rooms(rt)?;
    long(rt)
}
