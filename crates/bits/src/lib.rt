// Validity bits: copies of bit ranges that count their zeros, runs of one bit, counts, and one bit.
// They do the work of `set_bits` (bit_mask.rs) and `resize_for_bits` (arrow-data 60.1.0 src/transform/utils.rs).
// A position is a byte of the slice and a number of bits from there on.
#![tactic(auto)]

ghost use Rattle.std.specs.Prelude.{◌≡◌, ◌+◌, ◌*◌, ◌-◌, ◌%◌, ◌^◌, ◌≤◌, ◌<◌, min, length, replicate, get_or};
ghost use Rattle.bits.specs.Bits.{digits, bits, zeros, bits_at, put_bits};

use number::Unsigned;

// The lowest k bits of x.
fn low(x: u16, k: usize) -> u16
    requires { k ≤ 8 }
    ensures { result ≡ x % 2 ^ k }
{
    x % (1u16 << k)
}

// k bits from the bit j of the byte q on, 1 to 8 of them, as a number.
fn field(body: &[u8], q: usize, j: usize, k: usize) -> u8
    requires { (1 ≤ k) × (k ≤ 8) × (j < 8) × (8 * q + j + k ≤ 8 * length body.now) }
    ensures { (result < 2 ^ k) × (digits k result ≡ bits_at (8 * q + j) k body.now) }
{
    if j + k <= 8 {
        return low((u8::read(body, q) >> j) as u16, k) as u8;
    }
    low(u16::read(body, q) >> j, k) as u8
}

// The k digits of x into the byte d, above its lowest h bits; zeros above them.
fn put(room: &mut [u8], d: usize, h: usize, k: usize, x: u8)
    requires { (1 ≤ k) × (h + k ≤ 8) × (d < length room.old) × (x < 2 ^ k) }
    ensures { room.new ≡ put_bits (8 * d + h) (digits k x) room.old }
{
    let below = low(room[d] as u16, h);
    room[d] = (below + ((x as u16) << h)) as u8;
}

// k bits from the bit j of the byte q on into the byte d, above its lowest h bits; zeros above them. How many of them are 0.
fn copy_field(
    room: &mut [u8],
    d: usize,
    h: usize,
    body: &[u8],
    q: usize,
    j: usize,
    k: usize,
) -> usize
    requires { (1 ≤ k) × (h + k ≤ 8) × (d < length room.old) × (j < 8) × (8 * q + j + k ≤ 8 * length body.now) }
    ensures room_after { room.new ≡ put_bits (8 * d + h) (bits_at (8 * q + j) k body.now) room.old }
    ensures value { result ≡ zeros (bits_at (8 * q + j) k body.now) }
{
    let x = field(body, q, j, k);
    put(room, d, h, k, x);
    k - u8::count_ones(x) as usize
}

// How many bits there are from the bit h of a byte to its end, or n where that is less.
fn first(h: usize, n: usize) -> usize
    requires { h < 8 }
    ensures { result ≡ min n (8 - h) }
{
    n.min(8 - h)
}

// n bits from the bit j of the byte q on into room at the byte d, eight at a time. How many of them are 0.
fn copy_fields(room: &mut [u8], d: usize, body: &[u8], q: usize, j: usize, n: usize) -> usize
    requires { (j < 8) × (8 * d + n ≤ 8 * length room.old) × (8 * q + j + n ≤ 8 * length body.now) }
    ensures room_after { room.new ≡ put_bits (8 * d) (bits_at (8 * q + j) n body.now) room.old }
    ensures value { result ≡ zeros (bits_at (8 * q + j) n body.now) }
{
    let mut none = 0;
    for i in 0..n.div_ceil(8) {
        let k = first(0, n - 8 * i);
        none += copy_field(room, d + i, 0, body, q + i, j, k);
    }
    none
}

// m words of eight bytes from the byte q on into room at the byte d. How many of their bits are 0.
fn copy_words(room: &mut [u8], d: usize, body: &[u8], q: usize, m: usize) -> usize
    requires { (64 * m < 2 ^ 64) × (d + 8 * m ≤ length room.old) × (q + 8 * m ≤ length body.now) }
    ensures room_after { room.new ≡ put_bits (8 * d) (bits_at (8 * q) (64 * m) body.now) room.old }
    ensures value { result ≡ zeros (bits_at (8 * q) (64 * m) body.now) }
{
    let mut none = 0;
    for i in 0..m {
        let x = u64::read(body, q + 8 * i);
        x.write(room, d + 8 * i);
        none += 64 - u64::count_ones(x) as usize;
    }
    none
}

// The same from the bit j of the byte q on, j from 1 to 7: a word's lowest bits are of its first byte, the others of the word one byte on.
fn shift_words(room: &mut [u8], d: usize, body: &[u8], q: usize, j: usize, m: usize) -> usize
    requires { (1 ≤ j) × (j < 8) × (64 * m < 2 ^ 64) × (d + 8 * m ≤ length room.old) × (8 * q + j + 64 * m ≤ 8 * length body.now) }
    ensures room_after { room.new ≡ put_bits (8 * d) (bits_at (8 * q + j) (64 * m) body.now) room.old }
    ensures value { result ≡ zeros (bits_at (8 * q + j) (64 * m) body.now) }
{
    let k = 8 - j;
    let p = 1u64 << k;
    let mut none = 0;
    for i in 0..m {
        let lo = (u64::read(body, q + 8 * i) >> j) % p;
        let hi = u64::read(body, q + 8 * i + 1) << k;
        let x = lo + hi;
        x.write(room, d + 8 * i);
        none += 64 - u64::count_ones(x) as usize;
    }
    none
}

// m words of eight bytes from the bit j of the byte q on into room at the byte d. How many of their bits are 0.
fn copy_whole(room: &mut [u8], d: usize, body: &[u8], q: usize, j: usize, m: usize) -> usize
    requires { (j < 8) × (64 * m < 2 ^ 64) × (d + 8 * m ≤ length room.old) × (8 * q + j + 64 * m ≤ 8 * length body.now) }
    ensures room_after { room.new ≡ put_bits (8 * d) (bits_at (8 * q + j) (64 * m) body.now) room.old }
    ensures value { result ≡ zeros (bits_at (8 * q + j) (64 * m) body.now) }
{
    if j == 0 {
        return copy_words(room, d, body, q, m);
    }
    shift_words(room, d, body, q, j, m)
}

// n bits from the bit j of the byte q on into room at the byte d: words, then the rest. How many of them are 0.
fn copy_aligned(room: &mut [u8], d: usize, body: &[u8], q: usize, j: usize, n: usize) -> usize
    requires { (j < 8) × (8 * d + n ≤ 8 * length room.old) × (8 * q + j + n ≤ 8 * length body.now) }
    ensures room_after { room.new ≡ put_bits (8 * d) (bits_at (8 * q + j) n body.now) room.old }
    ensures value { result ≡ zeros (bits_at (8 * q + j) n body.now) }
{
    let m = n / 64;
    let words = copy_whole(room, d, body, q, j, m);
    let rest = copy_fields(room, d + 8 * m, body, q + 8 * m, j, n % 64);
    words + rest
}

// n bits of body into room, and zeros after them to the end of the last byte reached. How many of the n bits are 0.
pub fn copy_bits(
    room: &mut [u8],
    at: usize,
    b: usize,
    body: &[u8],
    from: usize,
    a: usize,
    n: usize,
) -> usize
    requires { (8 * at + b + n ≤ 8 * length room.old) × (8 * from + a + n ≤ 8 * length body.now) }
    ensures room_after { room.new ≡ put_bits (8 * at + b) (bits_at (8 * from + a) n body.now) room.old }
    ensures value { result ≡ zeros (bits_at (8 * from + a) n body.now) }
{
    if n == 0 {
        return 0;
    }
    let d = at + b / 8;
    let h = b % 8;
    let q = from + a / 8;
    let j = a % 8;
    if h == 0 {
        return copy_aligned(room, d, body, q, j, n);
    }
    let k = first(h, n);
    let head = copy_field(room, d, h, body, q, j, k);
    if k == n {
        return head;
    }
    let rest = copy_aligned(room, d + 1, body, q + (j + k) / 8, (j + k) % 8, n - k);
    head + rest
}

// The number of k digits v, each 0 or 1.
fn same(k: usize, v: u8) -> u8
    requires { (k ≤ 8) × (v ≤ 1) }
    ensures { (result < 2 ^ k) × (digits k result ≡ replicate k v) }
{
    ((1u16 << k) - 1) as u8 * v
}

// n bits v at the byte d, and zeros after them to the end of the last byte reached.
fn append_aligned(room: &mut [u8], d: usize, n: usize, v: u8)
    requires { (8 * d + n ≤ 8 * length room.old) × (v ≤ 1) }
    ensures { room.new ≡ put_bits (8 * d) (replicate n v) room.old }
{
    let m = n / 8;
    let k = n % 8;
    number::copy::fill_bytes(room, d, m, 255 * v);
    if k == 0 {
        return;
    }
    let x = same(k, v);
    put(room, d + m, 0, k, x);
}

// n bits v, and zeros after them to the end of the last byte reached.
fn append_same(room: &mut [u8], at: usize, b: usize, n: usize, v: u8)
    requires { (8 * at + b + n ≤ 8 * length room.old) × (v ≤ 1) }
    ensures { room.new ≡ put_bits (8 * at + b) (replicate n v) room.old }
{
    if n == 0 {
        return;
    }
    let d = at + b / 8;
    let h = b % 8;
    if h == 0 {
        append_aligned(room, d, n, v);
        return;
    }
    let k = first(h, n);
    let x = same(k, v);
    put(room, d, h, k, x);
    if k == n {
        return;
    }
    append_aligned(room, d + 1, n - k, v);
}

// n ones, and zeros after them to the end of the last byte reached.
pub fn append_ones(room: &mut [u8], at: usize, b: usize, n: usize)
    requires { 8 * at + b + n ≤ 8 * length room.old }
    ensures { room.new ≡ put_bits (8 * at + b) (replicate n 1) room.old }
{
    append_same(room, at, b, n, 1);
}

// n zeros, and zeros after them to the end of the last byte reached.
pub fn append_zeros(room: &mut [u8], at: usize, b: usize, n: usize)
    requires { 8 * at + b + n ≤ 8 * length room.old }
    ensures { room.new ≡ put_bits (8 * at + b) (replicate n 0) room.old }
{
    append_same(room, at, b, n, 0);
}

// How many bits of m words of eight bytes from the byte q on are 0.
fn count_words(body: &[u8], q: usize, m: usize) -> usize
    requires { (64 * m < 2 ^ 64) × (q + 8 * m ≤ length body.now) }
    ensures { result ≡ zeros (bits_at (8 * q) (64 * m) body.now) }
{
    let mut none = 0;
    for i in 0..m {
        let x = u64::read(body, q + 8 * i);
        none += 64 - u64::count_ones(x) as usize;
    }
    none
}

// How many of the n bits from the bit j of the byte q on are 0, eight at a time.
fn count_fields(body: &[u8], q: usize, j: usize, n: usize) -> usize
    requires { (j < 8) × (8 * q + j + n ≤ 8 * length body.now) }
    ensures { result ≡ zeros (bits_at (8 * q + j) n body.now) }
{
    let mut none = 0;
    for i in 0..n.div_ceil(8) {
        let k = first(0, n - 8 * i);
        let x = field(body, q + i, j, k);
        none += k - u8::count_ones(x) as usize;
    }
    none
}

// How many of the n bits of body are 0: to the end of the first byte, of whole words, and of the rest.
pub fn count_zeros(body: &[u8], from: usize, a: usize, n: usize) -> usize
    requires { 8 * from + a + n ≤ 8 * length body.now }
    ensures { result ≡ zeros (bits_at (8 * from + a) n body.now) }
{
    let q = from + a / 8;
    let j = a % 8;
    let k = first(j, n);
    let head = count_fields(body, q, j, k);
    if k == n {
        return head;
    }
    let m = (n - k) / 64;
    let words = count_words(body, q + 1, m);
    let rest = count_fields(body, q + 1 + 8 * m, 0, (n - k) % 64);
    head + words + rest
}

// One bit of body, 0 or 1.
pub fn get_bit(body: &[u8], from: usize, i: usize) -> u8
    requires { 8 * from + i < 8 * length body.now }
    ensures { result ≡ get_or (bits body.now) (8 * from + i) 0 }
{
    (body[from + i / 8] >> (i % 8)) % 2
}
