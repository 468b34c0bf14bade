// The rule of one node of a lent column (ground 12; docs/FORMAT.md): views, dictionaries and unions. Where its buffers lie, its validity,
// and its rows by its kind; every function is right whatever the tables hold.
ghost use Rattle.std.specs.Prelude.{◌≡◌, true, false, [], ℕ, ◌+◌, ◌*◌, ◌≤◌, ◌<◌, ◌^◌, min, length};
ghost use Rattle.std.proofs.Math.Option.{some};
ghost use Rattle.clauses.specs.Slices.{was};
ghost use Rattle.columnar.specs.Types.{Number, width, limit};
ghost use Rattle.schema.specs.formats.Types.{number_of};
ghost use Rattle.array_data.specs.Rules.{one_in, two_in, buffers_in, view_rule, dictionary_rule, sparse_rule, dense_rule};
ghost use Rattle.array_data.specs.lent_tables.Lent.{tables, Counted, mask_of};
ghost use Rattle.source_rules.specs.kinds.Rows.{tables_of, Ready, Children, view_rows, key_rows, reach, sparse_rows, dense_rows};

use array_data::lent_tables;
use number::Unsigned;
use row_rules::slots;

// One more than the largest key by code, from code 0 on; of the keys of code 8 the largest itself, as a u64 has no number above it.
const LIMITS: [u64; 11] = [
    0, // none
    128, // c
    256, // C
    32768, // s
    65536, // S
    2147483648, // i
    4294967296, // I
    9223372036854775808, // l
    18446744073709551615, // L
    0, // f
    0, // g
];

// Whether the data buffers of node k stand in the table, and each in the body.
fn buffers_in(places: &[u64], buffers: &[u64], body: &[u8], k: usize) -> bool
    requires { k < 2 ^ 33 }
    ensures { result ≡ buffers_in (tables_of [] (was places) (was buffers) (was body)) k }
{
    let first = lent_tables::place(places, k, 7);
    let count = lent_tables::place(places, k, 8);
    if !lent_tables::fits(first, count, (buffers.len() / 2) as u64) {
        return false;
    }
    for i in 0..count as usize {
        let at = 2 * ((first as usize) + i);
        if !lent_tables::in_body(body, buffers[at], buffers[at + 1]) {
            return false;
        }
    }
    true
}

// Whether the views of node k are good, null rows left out.
fn view_rows(lengths: &[u64], places: &[u64], buffers: &[u64], body: &[u8], k: usize) -> bool
    requires { Ready (tables_of lengths.now places.now buffers.now body.now) k × (buffers_in (tables_of [] places.now buffers.now body.now) k ≡ true) }
    ensures { result ≡ view_rows (tables_of (was lengths) (was places) (was buffers) (was body)) k }
{
    let count = lent_tables::count_of(lengths, k);
    if !lent_tables::rows_fit(count, 16, lent_tables::place(places, k, 4)) {
        return false;
    }
    let off = lent_tables::offset_of(lengths, k) as usize;
    let n = lent_tables::length_of(lengths, k) as usize;
    let at = (lent_tables::place(places, k, 3) as usize) + 16 * off;
    let first = lent_tables::place(places, k, 7) as usize;
    let many = lent_tables::place(places, k, 8) as usize;
    if lent_tables::place(places, k, 0) == 0 {
        return slots::views_good(body, at, n, buffers, first, many);
    }
    let from = lent_tables::place(places, k, 1) as usize;
    slots::valid_views_good(body, at, n, buffers, first, many, from, off)
}

// The rule of a node of views.
pub fn view_rule(lengths: &[u64], places: &[u64], buffers: &[u64], body: &[u8], k: usize) -> bool
    requires { Counted (tables_of lengths.now places.now buffers.now body.now) k }
    ensures { result ≡ view_rule (tables_of (was lengths) (was places) (was buffers) (was body)) k }
{
    if !lent_tables::one_in(lengths, places, body, k) {
        return false;
    }
    if !buffers_in(places, buffers, body, k) {
        return false;
    }
    if !lent_tables::mask_holds(lengths, places, body, k, true) {
        return false;
    }
    view_rows(lengths, places, buffers, body, k)
}

// The smaller of what a key's format holds and of the number of values.
fn key_bound(code: u8, values: u64) -> u64
    ensures { (m : Number) → number_of code ≡ some m → result ≡ min (limit m) values }
{
    let c = code as usize;
    if 10 < c {
        return 0;
    }
    LIMITS[c].min(values)
}

// Whether the keys of node k are below bound, null rows left out.
fn key_rows<N: Unsigned>(lengths: &[u64], places: &[u64], body: &[u8], k: usize, bound: u64) -> bool
    requires { Ready (tables lengths.now places.now body.now) k }
    ensures { result ≡ key_rows (tables (was lengths) (was places) (was body)) k N.SIZE bound }
{
    let count = lent_tables::count_of(lengths, k);
    if !lent_tables::rows_fit(count, N::SIZE as u8, lent_tables::place(places, k, 4)) {
        return false;
    }
    let off = lent_tables::offset_of(lengths, k) as usize;
    let n = lent_tables::length_of(lengths, k) as usize;
    let at = (lent_tables::place(places, k, 3) as usize) + N::SIZE * off;
    if lent_tables::place(places, k, 0) == 0 {
        return slots::keys_below::<N>(body, at, n, bound);
    }
    let from = lent_tables::place(places, k, 1) as usize;
    slots::valid_keys_below::<N>(body, at, n, bound, from, off)
}

// The same of keys of w bytes.
fn keys_ok(lengths: &[u64], places: &[u64], body: &[u8], k: usize, w: u8, bound: u64) -> bool
    requires { Ready (tables lengths.now places.now body.now) k }
    ensures { (m : Number) → width m ≡ w → result ≡ key_rows (tables (was lengths) (was places) (was body)) k w bound }
{
    match w {
        1 => key_rows::<u8>(lengths, places, body, k, bound),
        2 => key_rows::<u16>(lengths, places, body, k, bound),
        4 => key_rows::<u32>(lengths, places, body, k, bound),
        8 => key_rows::<u64>(lengths, places, body, k, bound),
        _ => false,
    }
}

// The rule of a dictionary node by the code of its keys' format; its values are the next node.
pub fn dictionary_rule(lengths: &[u64], places: &[u64], body: &[u8], k: usize, code: u8) -> bool
    requires { Counted (tables lengths.now places.now body.now) k × (k + 1 < 2 ^ 33) }
    ensures { (n : Number) → number_of code ≡ some n → result ≡ dictionary_rule (tables (was lengths) (was places) (was body)) k n }
{
    if !lent_tables::one_in(lengths, places, body, k) {
        return false;
    }
    if !lent_tables::mask_holds(lengths, places, body, k, true) {
        return false;
    }
    let bound = key_bound(code, lent_tables::length_of(lengths, k + 1));
    keys_ok(
        lengths,
        places,
        body,
        k,
        schema::formats::width_of(code),
        bound,
    )
}

// "no validity buffer on a union"
fn no_mask(lengths: &[u64], places: &[u64], body: &[u8], k: usize) -> bool
    requires { Counted (tables lengths.now places.now body.now) k }
    ensures { result ≡ mask_of (tables (was lengths) (was places) (was body)) k false }
{
    lent_tables::mask_holds(lengths, places, body, k, false)
}

// Whether the child of each id has at least count slots; lens has the children's lengths in field order.
fn children_reach(ids: &[u8], lens: &[u64], count: u64) -> bool
    ensures { result ≡ reach (was ids) (was lens) count }
{
    for &id in ids {
        if lent_tables::at_u64(lens, slots::field_of(ids, id)) < count {
            return false;
        }
    }
    true
}

// Whether the type ids of node k are declared, and its children long enough.
fn sparse_rows(
    lengths: &[u64],
    places: &[u64],
    body: &[u8],
    k: usize,
    ids: &[u8],
    lens: &[u64],
) -> bool
    requires { Counted (tables lengths.now places.now body.now) k × (one_in (tables lengths.now places.now body.now) k ≡ true) }
    ensures { result ≡ sparse_rows (tables (was lengths) (was places) (was body)) k (was ids) (was lens) }
{
    let count = lent_tables::count_of(lengths, k);
    if lent_tables::place(places, k, 4) < count {
        return false;
    }
    let off = lent_tables::offset_of(lengths, k) as usize;
    let n = lent_tables::length_of(lengths, k) as usize;
    let start = lent_tables::place(places, k, 3) as usize;
    if !slots::ids_declared(body, start + off, n, ids) {
        return false;
    }
    children_reach(ids, lens, count)
}

// The rule of a sparse union; lens has the lengths of its children in field order.
pub fn sparse_rule(
    lengths: &[u64],
    places: &[u64],
    body: &[u8],
    k: usize,
    ids: &[u8],
    lens: &[u64],
) -> bool
    requires { Counted (tables lengths.now places.now body.now) k }
    ensures { let t = tables (was lengths) (was places) (was body) in ((node : ℕ → ℕ) → Children t (was ids) (was lens) node → result ≡ sparse_rule t k (was ids) node) }
{
    if !lent_tables::one_in(lengths, places, body, k) {
        return false;
    }
    if !no_mask(lengths, places, body, k) {
        return false;
    }
    sparse_rows(lengths, places, body, k, ids, lens)
}

// Whether the type ids of node k are declared, and its positions within its children.
fn dense_rows(
    lengths: &[u64],
    places: &[u64],
    body: &[u8],
    k: usize,
    ids: &[u8],
    lens: &[u64],
) -> bool
    requires { Counted (tables lengths.now places.now body.now) k × (two_in (tables lengths.now places.now body.now) k ≡ true) }
    ensures { result ≡ dense_rows (tables (was lengths) (was places) (was body)) k (was ids) (was lens) }
{
    let count = lent_tables::count_of(lengths, k);
    if lent_tables::place(places, k, 4) < count {
        return false;
    }
    if !lent_tables::rows_fit(count, 4, lent_tables::place(places, k, 6)) {
        return false;
    }
    let off = lent_tables::offset_of(lengths, k) as usize;
    let n = lent_tables::length_of(lengths, k) as usize;
    let at = (lent_tables::place(places, k, 3) as usize) + off;
    let too = (lent_tables::place(places, k, 5) as usize) + 4 * off;
    slots::dense_good(body, at, too, n, ids, lens)
}

// The rule of a dense union; lens has the lengths of its children in field order.
pub fn dense_rule(
    lengths: &[u64],
    places: &[u64],
    body: &[u8],
    k: usize,
    ids: &[u8],
    lens: &[u64],
) -> bool
    requires { Counted (tables lengths.now places.now body.now) k }
    ensures { let t = tables (was lengths) (was places) (was body) in ((node : ℕ → ℕ) → Children t (was ids) (was lens) node → result ≡ dense_rule t k (was ids) node) }
{
    if !lent_tables::two_in(lengths, places, body, k) {
        return false;
    }
    if !no_mask(lengths, places, body, k) {
        return false;
    }
    dense_rows(lengths, places, body, k, ids, lens)
}
