// The format strings of the Arrow C Data Interface that document 01 admits, read from a slice of bytes.

ghost use Rattle.std.specs.Prelude.{◌≡◌, [], ◌∷◌, ◌+◌, ◌-◌, ◌≤◌, ◌<◌, length, take, drop};
ghost use Rattle.schema.specs.formats.Code.{code_of, code_at, between, is_integer, is_fixed, is_string, is_view, is_list_view, is_list, is_union, is_sparse, is_run_end, width_of};

// Codes are 1 to LAST_CODE.
pub const LAST_CODE: u64 = 23;

// The bytes of one entry by code, from code 0 on.
const WIDTHS: [u8; 24] = [
    0, // none
    1, // c
    1, // C
    2, // s
    2, // S
    4, // i
    4, // I
    8, // l
    8, // L
    4, // f
    8, // g
    4, // z
    4, // u
    8, // Z
    8, // U
    0, // vz
    0, // vu
    4, // +vl
    8, // +vL
    4, // +l
    8, // +L
    0, // +us:
    0, // +ud:
    0, // +r
];

// ---- codes

fn code_of_1(a: u8) -> u8
    ensures { result ≡ code_of (a ∷ []) }
{
    match a {
        b'c' => 1,
        b'C' => 2,
        b's' => 3,
        b'S' => 4,
        b'i' => 5,
        b'I' => 6,
        b'l' => 7,
        b'L' => 8,
        b'f' => 9,
        b'g' => 10,
        b'z' => 11,
        b'u' => 12,
        b'Z' => 13,
        b'U' => 14,
        _ => 0,
    }
}

fn code_of_2(a: u8, b: u8) -> u8
    ensures { result ≡ code_of (a ∷ b ∷ []) }
{
    if a == b'v' {
        return match b {
            b'z' => 15,
            b'u' => 16,
            _ => 0,
        };
    }
    if a != b'+' {
        return 0;
    }
    match b {
        b'l' => 19,
        b'L' => 20,
        b'r' => 23,
        _ => 0,
    }
}

fn code_of_3(a: u8, b: u8, c: u8) -> u8
    ensures { result ≡ code_of (a ∷ b ∷ c ∷ []) }
{
    if a != b'+' {
        return 0;
    }
    if b != b'v' {
        return 0;
    }
    match c {
        b'l' => 17,
        b'L' => 18,
        _ => 0,
    }
}

fn code_of_4(a: u8, b: u8, c: u8, d: u8) -> u8
    ensures { result ≡ code_of (a ∷ b ∷ c ∷ d ∷ []) }
{
    if a != b'+' {
        return 0;
    }
    if b != b'u' {
        return 0;
    }
    if d != b':' {
        return 0;
    }
    match c {
        b's' => 21,
        b'd' => 22,
        _ => 0,
    }
}

fn code_of(t: &[u8]) -> u8
    ensures { result ≡ code_of t.now }
{
    let n = t.len();
    if n == 0 {
        return 0;
    }
    if n == 1 {
        return code_of_1(t[0]);
    }
    if n == 2 {
        return code_of_2(t[0], t[1]);
    }
    if n == 3 {
        return code_of_3(t[0], t[1], t[2]);
    }
    code_of_4(t[0], t[1], t[2], t[3])
}

// The code of the format of len bytes at `at`; 0 where it is none that 01 admits, and where it does not lie inside.
pub fn format_code(formats: &[u8], at: usize, len: usize) -> u8
    ensures { result ≡ code_at formats.now at len }
{
    let n = formats.len();
    if n < at {
        return 0;
    }
    if n - at < len {
        return 0;
    }
    let end = at + len;
    code_of(&formats[at..end])
}

// ---- what a code means

// Whether x is one of the numbers from low to high.
pub fn within(x: u8, low: u8, high: u8) -> bool
    ensures { result ≡ between low high x }
{
    if x < low {
        return false;
    }
    x <= high
}

// c C s S i I l L: the formats of keys.
pub fn is_integer(code: u8) -> bool
    ensures { result ≡ is_integer code }
{
    within(code, 1, 8)
}

// c C s S i I l L f g.
pub fn is_fixed(code: u8) -> bool
    ensures { result ≡ is_fixed code }
{
    within(code, 1, 10)
}

// z u Z U.
pub fn is_string(code: u8) -> bool
    ensures { result ≡ is_string code }
{
    within(code, 11, 14)
}

// vz vu.
pub fn is_view(code: u8) -> bool
    ensures { result ≡ is_view code }
{
    within(code, 15, 16)
}

// +vl +vL.
pub fn is_list_view(code: u8) -> bool
    ensures { result ≡ is_list_view code }
{
    within(code, 17, 18)
}

// +l +L.
pub fn is_list(code: u8) -> bool
    ensures { result ≡ is_list code }
{
    within(code, 19, 20)
}

// +us: +ud:.
pub fn is_union(code: u8) -> bool
    ensures { result ≡ is_union code }
{
    within(code, 21, 22)
}

// +us:.
pub fn is_sparse(code: u8) -> bool
    ensures { result ≡ is_sparse code }
{
    code == 21
}

// +r.
pub fn is_run_end(code: u8) -> bool
    ensures { result ≡ is_run_end code }
{
    within(code, 23, 23)
}

// The bytes of one number or one offset; 0 where the type has neither.
pub fn width_of(code: u8) -> u8
    ensures { result ≡ width_of code }
{
    let k = code as usize;
    if k < 24 { WIDTHS[k] } else { 0 }
}
