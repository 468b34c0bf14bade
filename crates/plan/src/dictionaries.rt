// What an opening settles before the first order: which nodes keep nulls, which dictionaries are shared, and whether the keys fit.
// Node i of source s is node sources[2 * s] + i of the tables (docs/FORMAT.md).
ghost use Rattle.std.specs.Prelude.{◌≡◌, Bool, true, false, List, ℕ, ◌+◌, ◌<◌, ◌^◌, eqb};
ghost use Rattle.std.proofs.Math.Option.{some};
ghost use Rattle.clauses.specs.Slices.{was};
ghost use Rattle.columnar.specs.Types.{Number, limit, key_fits};
ghost use Rattle.columnar.specs.Array.{null_count_of};
ghost use Rattle.columnar.specs.Test.{same};
ghost use Rattle.model.specs.Opening.{keeps, ptr_eq, shared, entries_before, start_of_keys};
ghost use Rattle.schema.specs.formats.Code.{is_integer};
ghost use Rattle.schema.specs.formats.Types.{number_of};
ghost use Rattle.array_data.specs.Typed.{valid_start};
ghost use Rattle.array_data.specs.lent_tables.Lent.{tables};
ghost use Rattle.plan.specs.dictionaries.Sources.{array_of, array_at, starts_of, dict_with, dict_at, Countable, capped};
ghost use Rattle.array_data.specs.Sources.{first_of};

use array_data::lent_tables;

// Which node of the tables is node i of source s.
pub fn node_of(sources: &[u32], s: usize, i: usize) -> usize
    requires { (s < 2 ^ 32) × (i < 2 ^ 32) }
    ensures value { result ≡ first_of (was sources) s + i }
    ensures upper_bound { result < 2 ^ 33 }
{
    (lent_tables::at_u32(sources, 2 * s) as usize) + i
}

// ---- nulls

// How many rows of node k are null.
pub fn null_count(lengths: &[u64], places: &[u64], body: &[u8], k: usize) -> u64
    requires { Countable (tables lengths.now places.now body.now) k }
    ensures { result ≡ null_count_of (array_of (tables (was lengths) (was places) (was body)) k) }
{
    if lent_tables::place(places, k, 0) == 0 {
        return 0;
    }
    let n = lent_tables::length_of(lengths, k);
    if n == 0 {
        return 0;
    }
    let from = lent_tables::place(places, k, 1);
    let off = lent_tables::offset_of(lengths, k);
    bits::count_zeros(body, from as usize, off as usize, n as usize) as u64
}

// Whether one of the first m sources has a null at node i.
pub fn any_null(
    sources: &[u32],
    lengths: &[u64],
    places: &[u64],
    body: &[u8],
    m: usize,
    i: usize,
) -> bool
    requires { (m < 2 ^ 32) × (i < 2 ^ 32) × ((s : ℕ) → s < m → Countable (tables lengths.now places.now body.now) (first_of sources.now s + i)) }
    ensures { result ≡ keeps false m (array_at (tables (was lengths) (was places) (was body)) (was sources) i) }
{
    for s in 0..m {
        let k = node_of(sources, s, i);
        if null_count(lengths, places, body, k) != 0 {
            return true;
        }
    }
    false
}

// Whether node i keeps nulls, where `above` says that the caller or the node above it asks for them.
pub fn keeps(
    above: bool,
    sources: &[u32],
    lengths: &[u64],
    places: &[u64],
    body: &[u8],
    m: usize,
    i: usize,
) -> bool
    requires { (m < 2 ^ 32) × (i < 2 ^ 32) × ((s : ℕ) → s < m → Countable (tables lengths.now places.now body.now) (first_of sources.now s + i)) }
    ensures { result ≡ keeps above m (array_at (tables (was lengths) (was places) (was body)) (was sources) i) }
{
    if above {
        return true;
    }
    any_null(sources, lengths, places, body, m, i)
}

// ---- dictionaries

// Whether no row of node k is null, whatever the tables hold: a bit that the body does not have is a zero.
fn has_no_null(lengths: &[u64], places: &[u64], body: &[u8], k: usize) -> bool
    requires { k < 2 ^ 33 }
    ensures { result ≡ eqb (null_count_of (array_of (tables (was lengths) (was places) (was body)) k)) 0 }
{
    if lent_tables::place(places, k, 0) == 0 {
        return true;
    }
    let n = lent_tables::length_of(lengths, k);
    if n == 0 {
        return true;
    }
    let off = lent_tables::offset_of(lengths, k);
    let from = lent_tables::place(places, k, 1);
    let bytes = lent_tables::part_len(body, from, lent_tables::place(places, k, 2));
    if !lent_tables::bits_fit(off, n, bytes) {
        return false;
    }
    null_count(lengths, places, body, k) == 0
}

// Whether the validity of the nodes a and b begins at the same place; one without a zero bit among the rows begins nowhere.
fn same_valid(lengths: &[u64], places: &[u64], body: &[u8], a: usize, b: usize) -> bool
    requires { (a < 2 ^ 33) × (b < 2 ^ 33) }
    ensures { result ≡ eqb (valid_start (tables (was lengths) (was places) (was body)) a) (valid_start (tables (was lengths) (was places) (was body)) b) }
{
    if has_no_null(lengths, places, body, a) {
        return has_no_null(lengths, places, body, b);
    }
    if has_no_null(lengths, places, body, b) {
        return false;
    }
    lent_tables::place(places, a, 1) == lent_tables::place(places, b, 1)
}

// Whether the values of two dictionaries, the nodes a and b, begin at the same places: byte strings where `string`, else numbers.
fn same_starts(
    lengths: &[u64],
    places: &[u64],
    body: &[u8],
    a: usize,
    b: usize,
    string: bool,
) -> bool
    requires { (a < 2 ^ 33) × (b < 2 ^ 33) }
    ensures { result ≡ same (starts_of (tables (was lengths) (was places) (was body)) string a) (starts_of (tables (was lengths) (was places) (was body)) string b) }
{
    let valid = same_valid(lengths, places, body, a, b);
    let first = lent_tables::place(places, a, 3) == lent_tables::place(places, b, 3);
    let second = lent_tables::place(places, a, 5) == lent_tables::place(places, b, 5);
    valid & first & (second | !string)
}

// Whether the dictionaries whose values are the nodes a and b are the same one.
pub fn ptr_eq(
    lengths: &[u64],
    places: &[u64],
    body: &[u8],
    a: usize,
    b: usize,
    string: bool,
) -> bool
    requires { (a < 2 ^ 33) × (b < 2 ^ 33) }
    ensures { result ≡ ptr_eq (dict_with (tables (was lengths) (was places) (was body)) string a) (dict_with (tables (was lengths) (was places) (was body)) string b) }
{
    let offset = lent_tables::offset_of(lengths, a) == lent_tables::offset_of(lengths, b);
    let length = lent_tables::length_of(lengths, a) == lent_tables::length_of(lengths, b);
    offset & length & same_starts(lengths, places, body, a, b, string)
}

// Whether all neighbouring sources of the first m share the dictionary whose values are node i.
pub fn all_share(
    sources: &[u32],
    lengths: &[u64],
    places: &[u64],
    body: &[u8],
    m: usize,
    i: usize,
    string: bool,
) -> bool
    requires { (m < 2 ^ 32) × (i < 2 ^ 32) }
    ensures { result ≡ shared m (dict_at (tables (was lengths) (was places) (was body)) (was sources) string i) }
{
    for s in 1..m {
        let a = node_of(sources, s - 1, i);
        let b = node_of(sources, s, i);
        if !ptr_eq(lengths, places, body, a, b, string) {
            return false;
        }
    }
    true
}

// ---- keys

// The sum of two numbers, or the largest of 64 bits where it is above that.
fn add_capped(a: u64, b: u64) -> u64
    ensures { result ≡ capped (a + b) }
{
    a.saturating_add(b)
}

// How many entries the dictionaries of the sources before source j have, or the largest number of 64 bits where there are more.
// It does not depend on the kind, the places and the bytes of the entries.
pub fn entries_before(sources: &[u32], lengths: &[u64], i: usize, j: usize) -> u64
    requires { (i < 2 ^ 32) × (j < 2 ^ 32) }
    ensures { (places body : List ℕ) (string : Bool) → result ≡ capped (entries_before (dict_at (tables (was lengths) places body) (was sources) string i) j) }
{
    let mut sum: u64 = 0;
    for s in 0..j {
        let k = node_of(sources, s, i);
        sum = add_capped(sum, lent_tables::length_of(lengths, k));
    }
    sum
}

// What is added to the keys of source j: 0 if all m share, else the entries of earlier sources, or the largest number of 64 bits.
pub fn start_of_keys(
    sources: &[u32],
    lengths: &[u64],
    places: &[u64],
    body: &[u8],
    m: usize,
    i: usize,
    string: bool,
    j: usize,
) -> u64
    requires { (m < 2 ^ 32) × (i < 2 ^ 32) × (j < 2 ^ 32) }
    ensures { result ≡ capped (start_of_keys m (dict_at (tables (was lengths) (was places) (was body)) (was sources) string i) j) }
{
    if all_share(sources, lengths, places, body, m, i, string) {
        return 0;
    }
    entries_before(sources, lengths, i, j)
}

// The largest key of each integer format, by its code.
const LARGEST: [u64; 9] = [
    0,
    127,
    255,
    32767,
    65535,
    2147483647,
    4294967295,
    9223372036854775807,
    18446744073709551615,
];

fn largest_key(code: u8) -> u64
    requires { is_integer code ≡ true }
    ensures { (n : Number) → number_of code ≡ some n → limit n ≡ result + 1 }
{
    let k = code as usize;
    LARGEST[k]
}

// Whether the keys of a source fit the key format of this code, where `start` is added to them and its dictionary has n entries:
// ground 8 where not.
pub fn key_fits(start: u64, n: u64, code: u8) -> bool
    requires { is_integer code ≡ true }
    ensures { (k : Number) → number_of code ≡ some k → result ≡ key_fits k start n }
{
    let top = largest_key(code);
    if top < start {
        return false;
    }
    if n == 0 {
        return true;
    }
    lent_tables::fits(start, n - 1, top)
}
