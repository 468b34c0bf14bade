// The ids in the format strings of unions, and whether two formats stand for the same type.
ghost use Rattle.std.specs.Prelude.{◌≡◌, [], ◌∷◌, ◌+◌, ◌-◌, ◌≤◌, ◌<◌, length, take, drop};
ghost use Rattle.schema.specs.union_ids.Ids.{first_comma, id_of, id_list, ids_at, answer_of, written, same_ids, same_format};
ghost use Rattle.columnar.specs.Test.{same, member};

// Where the first comma from p on stands; the length where there is none.
fn comma(t: &[u8], p: usize) -> usize
    requires { p ≤ length t.now }
    ensures { result ≡ p + first_comma (drop p t.now) }
{
    let rest = &t[p..];
    p + rest.iter().position(|b| *b == b',').unwrap_or(rest.len())
}

// The number of one to three digits; 128 where the piece is none.
fn id_of(piece: &[u8]) -> u64
    ensures { result ≡ id_of piece.now }
{
    if piece.is_empty() {
        return 128;
    }
    if 3 < piece.len() {
        return 128;
    }
    let mut x = 0;
    for b in piece {
        if !b.is_ascii_digit() {
            return 128;
        }
        x = 10 * x + (*b - b'0') as u64;
    }
    x
}

// The ids that the text lists, written to the front of the array where a union may have them.
fn read_ids(t: &[u8], ids: &mut [u8; 16]) -> Option<u8>
    ensures value { result ≡ answer_of (id_list t.now) }
    ensures ids_after { ids.new ≡ written (id_list t.now) ids.old }
{
    let n = t.len();
    if n == 0 {
        return Some(0);
    }
    let mut trial = *ids;
    let mut p = 0;
    for k in 0..16 {
        let e = comma(t, p);
        let x = id_of(&t[p..e]);
        if 127 < x {
            return None;
        }
        if trial[..k].contains(&(x as u8)) {
            return None;
        }
        trial[k] = x as u8;
        if e == n {
            *ids = trial;
            return Some(k as u8 + 1);
        }
        p = e + 1;
    }
    None
}

// The ids of the union format of len bytes at `at`: in field order at the front of the array, which is otherwise left as it was.
pub fn union_ids(formats: &[u8], at: usize, len: usize, ids: &mut [u8; 16]) -> Option<u8>
    ensures value { result ≡ answer_of (ids_at formats.now at len) }
    ensures ids_after { ids.new ≡ written (ids_at formats.now at len) ids.old }
{
    if !crate::formats::is_union(crate::formats::format_code(formats, at, len)) {
        return None;
    }
    let from = at + 4;
    let end = at + len;
    read_ids(&formats[from..end], ids)
}

// ---- the same type

fn same_ids(formats: &[u8], at: usize, len: usize, at2: usize, len2: usize) -> bool
    ensures { result ≡ same_ids (ids_at formats.now at len) (ids_at formats.now at2 len2) }
{
    let mut a = [0u8; 16];
    let mut b = [0u8; 16];
    let Some(k) = union_ids(formats, at, len, &mut a) else {
        return false;
    };
    let Some(m) = union_ids(formats, at2, len2, &mut b) else {
        return false;
    };
    a[..k as usize] == b[..m as usize]
}

// Whether the two formats stand for the same type.
pub fn same_format(formats: &[u8], at: usize, len: usize, at2: usize, len2: usize) -> bool
    ensures { result ≡ same_format formats.now at len at2 len2 }
{
    let code = crate::formats::format_code(formats, at, len);
    if code == 0 {
        return false;
    }
    if code != crate::formats::format_code(formats, at2, len2) {
        return false;
    }
    if !crate::formats::is_union(code) {
        return true;
    }
    same_ids(formats, at, len, at2, len2)
}
