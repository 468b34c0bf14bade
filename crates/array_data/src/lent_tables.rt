// The lent tables of columns (docs/FORMAT.md), read through getters that answer 0 past a table's end, and what is asked of a node's places.
ghost use Rattle.std.specs.Prelude.{◌≡◌, [], ◌+◌, ◌*◌, ◌<◌, ◌^◌, length, get_or, leb};
ghost use Rattle.array_data.specs.Tables.{part, length_of, offset_of, place, held, in_body, valid_in};
ghost use Rattle.array_data.specs.Rules.{one_in, two_in};
ghost use Rattle.array_data.specs.lent_tables.Lent.{tables, Counted, mask_of};

// Number i of a table; 0 past its end.
pub fn at_u32(t: &[u32], i: usize) -> u32
    ensures { result ≡ get_or t.now i 0 }
{
    t.get(i).copied().unwrap_or(0)
}

// Number i of a table; 0 past its end.
pub fn at_u64(t: &[u64], i: usize) -> u64
    ensures { result ≡ get_or t.now i 0 }
{
    t.get(i).copied().unwrap_or(0)
}

// Number j of the pair a + b of a table; 0 past its end.
pub fn pair_at(t: &[u64], a: u64, b: u64, j: usize) -> u64
    requires { j < 2 }
    ensures { result ≡ get_or t.now (2 * (a + b) + j) 0 }
{
    if !fits(a, b, (t.len() / 2) as u64) {
        return 0;
    }
    at_u64(t, 2 * ((a + b) as usize) + j)
}

// The length of node k.
pub fn length_of(lengths: &[u64], k: usize) -> u64
    requires { k < 2 ^ 33 }
    ensures { result ≡ length_of (tables lengths.now [] []) k }
{
    at_u64(lengths, 2 * k)
}

// The offset of node k.
pub fn offset_of(lengths: &[u64], k: usize) -> u64
    requires { k < 2 ^ 33 }
    ensures { result ≡ offset_of (tables lengths.now [] []) k }
{
    at_u64(lengths, 2 * k + 1)
}

// Number j of the nine places of node k.
pub fn place(places: &[u64], k: usize, j: usize) -> u64
    requires { (k < 2 ^ 33) × (j < 9) }
    ensures { result ≡ place (tables [] places.now []) k j }
{
    at_u64(places, 9 * k + j)
}

// Whether the tables have node k.
pub fn held(lengths: &[u64], places: &[u64], k: usize) -> bool
    requires { k < 2 ^ 33 }
    ensures { result ≡ held (tables lengths.now places.now []) k }
{
    if lengths.len() < 2 * (k + 1) {
        return false;
    }
    9 * (k + 1) <= places.len()
}

// Whether the range of `size` from `at` on lies in `len`; no sum is made.
pub fn fits(at: u64, size: u64, len: u64) -> bool
    ensures { result ≡ leb (at + size) len }
{
    if len < size {
        return false;
    }
    at <= len - size
}

// Whether n bits behind the first `a` lie in so many bytes; neither their sum nor the bytes' bits are made.
pub fn bits_fit(a: u64, n: u64, bytes: u64) -> bool
    ensures { result ≡ leb (a + n) (8 * bytes) }
{
    a / 8 + n / 8 + (a % 8 + n % 8 + 7) / 8 <= bytes
}

// Whether `size` from `at` on behind `start` lie in `len`.
pub fn fits_behind(start: u64, at: u64, size: u64, len: u64) -> bool
    ensures { result ≡ leb (start + at + size) len }
{
    if !fits(at, size, len) {
        return false;
    }
    fits(start, at + size, len)
}

// The same of n bits behind the first `a` of those from the byte `start` on.
pub fn bits_fit_behind(start: u64, a: u64, n: u64, bytes: u64) -> bool
    ensures { result ≡ leb (8 * start + a + n) (8 * bytes) }
{
    if bytes < start {
        return false;
    }
    bits_fit(a, n, bytes - start)
}

// Whether a range lies in the body.
pub fn in_body(body: &[u8], at: u64, size: u64) -> bool
    ensures { result ≡ in_body (tables [] [] body.now) at size }
{
    fits(at, size, body.len() as u64)
}

// Whether the validity of node k, if it has one, lies in the body.
pub fn valid_in(places: &[u64], body: &[u8], k: usize) -> bool
    requires { k < 2 ^ 33 }
    ensures { result ≡ valid_in (tables [] places.now body.now) k }
{
    if place(places, k, 0) == 0 {
        return true;
    }
    in_body(body, place(places, k, 1), place(places, k, 2))
}

// Whether the tables have node k, and its validity and first buffer lie in the body.
pub fn one_in(lengths: &[u64], places: &[u64], body: &[u8], k: usize) -> bool
    requires { k < 2 ^ 33 }
    ensures { result ≡ one_in (tables lengths.now places.now body.now) k }
{
    if !held(lengths, places, k) {
        return false;
    }
    if !valid_in(places, body, k) {
        return false;
    }
    in_body(body, place(places, k, 3), place(places, k, 4))
}

// The same with a second buffer.
pub fn two_in(lengths: &[u64], places: &[u64], body: &[u8], k: usize) -> bool
    requires { k < 2 ^ 33 }
    ensures { result ≡ two_in (tables lengths.now places.now body.now) k }
{
    if !one_in(lengths, places, body, k) {
        return false;
    }
    in_body(body, place(places, k, 5), place(places, k, 6))
}

// How many bytes of a range lie in the body.
pub fn part_len(body: &[u8], at: u64, size: u64) -> u64
    ensures { result ≡ length (part body.now at size) }
{
    let len = body.len() as u64;
    if len <= at {
        return 0;
    }
    let left = len - at;
    if left < size {
        return left;
    }
    size
}

// One past the last slot of node k.
pub fn count_of(lengths: &[u64], k: usize) -> u64
    requires { Counted (tables lengths.now [] []) k }
    ensures { result ≡ offset_of (tables lengths.now [] []) k + length_of (tables lengths.now [] []) k }
{
    offset_of(lengths, k) + length_of(lengths, k)
}

// Whether the validity of node k, if it has one, may be there and has a bit for each slot.
pub fn mask_holds(lengths: &[u64], places: &[u64], body: &[u8], k: usize, may: bool) -> bool
    requires { Counted (tables lengths.now places.now body.now) k }
    ensures { result ≡ mask_of (tables lengths.now places.now body.now) k may }
{
    if place(places, k, 0) == 0 {
        return true;
    }
    if !may {
        return false;
    }
    let bytes = part_len(body, place(places, k, 1), place(places, k, 2));
    bits_fit(offset_of(lengths, k), length_of(lengths, k), bytes)
}

// So many entries of at most 255 bytes each have fewer than 2^64 bytes.
const FEW: u64 = 72057594037927936;

// Whether n entries of w bytes fit into a size; no product that wraps is made.
pub fn rows_fit(n: u64, w: u8, size: u64) -> bool
    ensures { result ≡ leb (n * w) size }
{
    if n < FEW {
        return n * (w as u64) <= size;
    }
    if w == 0 {
        return true;
    }
    n <= size / (w as u64)
}

// Whether n entries of w bytes from `at` on lie in `len`.
pub fn rows_fit_behind(at: u64, n: u64, w: u8, len: u64) -> bool
    ensures { result ≡ leb (at + w * n) len }
{
    if len < at {
        return false;
    }
    rows_fit(n, w, len - at)
}
