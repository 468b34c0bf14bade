// The rule of one node of a lent column (ground 12; docs/FORMAT.md): where its buffers lie, its validity, and its rows by its kind.
// Every function reads the tables through getters that answer 0 past a table's end, and is right whatever the tables hold.
ghost use Rattle.std.specs.Prelude.{◌≡◌, true, [], ◌+◌, ◌*◌, ◌≤◌, ◌<◌, ◌^◌, length};
ghost use Rattle.clauses.specs.Slices.{was};
ghost use Rattle.columnar.specs.Types.{Number, width};
ghost use Rattle.array_data.specs.Tables.{place, held};
ghost use Rattle.array_data.specs.Rules.{fixed_rule, string_rule, list_view_rule, list_rule, run_end_rule};
ghost use Rattle.array_data.specs.lent_tables.Lent.{tables, Counted, mask_of};
ghost use Rattle.source_rules.specs.nodes.Rows.{string_rows, views_rows, start_in, valid_rows, runs_valid, ends_reach};

use array_data::lent_tables;
use number::Unsigned;

// The rule of a node of numbers of w bytes.
pub fn fixed_rule(lengths: &[u64], places: &[u64], body: &[u8], k: usize, w: u8) -> bool
    requires { Counted (tables lengths.now places.now body.now) k }
    ensures { (n : Number) → width n ≡ w → result ≡ fixed_rule (tables (was lengths) (was places) (was body)) k n }
{
    if !lent_tables::one_in(lengths, places, body, k) {
        return false;
    }
    if !lent_tables::mask_holds(lengths, places, body, k, true) {
        return false;
    }
    lent_tables::rows_fit(
        lent_tables::count_of(lengths, k),
        w,
        lent_tables::place(places, k, 4),
    )
}

// The rows of a byte string or list whose offsets are the range of `size` bytes from `start` on, over `most` bytes of data or rows.
fn strings<N: Unsigned>(body: &[u8], start: u64, size: u64, off: u64, len: u64, most: u64) -> bool
    requires { (start + size ≤ length body.now) × (off + len < 2 ^ 63) }
    ensures { result ≡ string_rows N.SIZE (was body) start size off len most }
{
    if size == 0 {
        return len == 0;
    }
    if !lent_tables::rows_fit(off + len + 1, N::SIZE as u8, size) {
        return false;
    }
    let at = (start as usize) + N::SIZE * (off as usize);
    let n = len as usize;
    if !row_rules::offsets::<N>(body, at, n) {
        return false;
    }
    N::read(body, at + N::SIZE * n).to_u64() <= most
}

// The rule of a node of byte strings with offsets of N.
pub fn string_rule<N: Unsigned>(lengths: &[u64], places: &[u64], body: &[u8], k: usize) -> bool
    requires { Counted (tables lengths.now places.now body.now) k }
    ensures { result ≡ string_rule (tables (was lengths) (was places) (was body)) k N.SIZE }
{
    if !lent_tables::two_in(lengths, places, body, k) {
        return false;
    }
    if !lent_tables::mask_holds(lengths, places, body, k, true) {
        return false;
    }
    let start = lent_tables::place(places, k, 3);
    let size = lent_tables::place(places, k, 4);
    let chars = lent_tables::place(places, k, 6);
    let off = lent_tables::offset_of(lengths, k);
    let len = lent_tables::length_of(lengths, k);
    strings::<N>(body, start, size, off, len, chars)
}

// The rows of a list-view whose offsets and sizes are the ranges from `start` and from `begin` on, over `child` rows.
fn views<N: Unsigned>(
    body: &[u8],
    start: u64,
    size: u64,
    begin: u64,
    room: u64,
    off: u64,
    len: u64,
    child: u64,
) -> bool
    requires { (start + size ≤ length body.now) × (begin + room ≤ length body.now) × (off + len < 2 ^ 63) }
    ensures { result ≡ views_rows N.SIZE (was body) start size begin room off len child }
{
    if !lent_tables::rows_fit(off + len, N::SIZE as u8, size) {
        return false;
    }
    if !lent_tables::rows_fit(off + len, N::SIZE as u8, room) {
        return false;
    }
    let at = (start as usize) + N::SIZE * (off as usize);
    let too = (begin as usize) + N::SIZE * (off as usize);
    row_rules::list_views::<N>(body, at, too, len as usize, child)
}

// The rule of a list-view node with offsets and sizes of N; its child is the next node.
pub fn list_view_rule<N: Unsigned>(lengths: &[u64], places: &[u64], body: &[u8], k: usize) -> bool
    requires { Counted (tables lengths.now places.now body.now) k × (k + 1 < 2 ^ 33) }
    ensures { result ≡ list_view_rule (tables (was lengths) (was places) (was body)) k N.SIZE }
{
    if !lent_tables::two_in(lengths, places, body, k) {
        return false;
    }
    if !lent_tables::mask_holds(lengths, places, body, k, true) {
        return false;
    }
    let start = lent_tables::place(places, k, 3);
    let size = lent_tables::place(places, k, 4);
    let begin = lent_tables::place(places, k, 5);
    let room = lent_tables::place(places, k, 6);
    let child = lent_tables::length_of(lengths, k + 1);
    let off = lent_tables::offset_of(lengths, k);
    let len = lent_tables::length_of(lengths, k);
    views::<N>(body, start, size, begin, room, off, len, child)
}

// The rule of a list node with offsets of N; its child is the next node.
pub fn list_rule<N: Unsigned>(lengths: &[u64], places: &[u64], body: &[u8], k: usize) -> bool
    requires { Counted (tables lengths.now places.now body.now) k × (k + 1 < 2 ^ 33) }
    ensures { result ≡ list_rule (tables (was lengths) (was places) (was body)) k N.SIZE }
{
    if !lent_tables::one_in(lengths, places, body, k) {
        return false;
    }
    if !lent_tables::mask_holds(lengths, places, body, k, true) {
        return false;
    }
    let start = lent_tables::place(places, k, 3);
    let size = lent_tables::place(places, k, 4);
    let child = lent_tables::length_of(lengths, k + 1);
    let off = lent_tables::offset_of(lengths, k);
    let len = lent_tables::length_of(lengths, k);
    strings::<N>(body, start, size, off, len, child)
}

// Where a range of the body begins, or the body's end where the range begins past it.
fn part_start(body: &[u8], at: u64) -> usize
    ensures { result ≡ start_in (was body) at }
{
    body.len().min(at as usize)
}

// Whether no bit of node k's rows is zero, where its validity has a bit for each slot.
fn all_valid(lengths: &[u64], places: &[u64], body: &[u8], k: usize) -> bool
    requires { Counted (tables lengths.now places.now body.now) k × (mask_of (tables lengths.now places.now body.now) k true ≡ true) }
    ensures { result ≡ valid_rows (tables (was lengths) (was places) (was body)) k }
{
    if lent_tables::place(places, k, 0) == 0 {
        return true;
    }
    let n = lent_tables::length_of(lengths, k);
    if n == 0 {
        return true;
    }
    let from = lent_tables::place(places, k, 1);
    let off = lent_tables::offset_of(lengths, k);
    bits::count_zeros(body, from as usize, off as usize, n as usize) == 0
}

// Whether node k has no validity, and the run ends behind it have a bit for each slot and no null.
fn runs_valid(lengths: &[u64], places: &[u64], body: &[u8], k: usize) -> bool
    requires { (k < 2 ^ 33) × Counted (tables lengths.now places.now body.now) (k + 1) }
    ensures { result ≡ runs_valid (tables (was lengths) (was places) (was body)) k (k + 1) }
{
    if !lent_tables::held(lengths, places, k) {
        return false;
    }
    if lent_tables::place(places, k, 0) != 0 {
        return false;
    }
    if !lent_tables::mask_holds(lengths, places, body, k + 1, true) {
        return false;
    }
    all_valid(lengths, places, body, k + 1)
}

// Run ends in the range of `size` bytes from `start` on: they fit, rise strictly from at least 1, and the last is at least `reach`.
fn ends<N: Unsigned>(body: &[u8], start: usize, size: u64, off: u64, len: u64, reach: u64) -> bool
    requires { (start + size ≤ length body.now) × (off + len < 2 ^ 63) }
    ensures { result ≡ ends_reach N.SIZE (was body) start size off len reach }
{
    if !lent_tables::rows_fit(off + len, N::SIZE as u8, size) {
        return false;
    }
    let at = start + N::SIZE * (off as usize);
    let n = len as usize;
    if !row_rules::run_ends::<N>(body, at, n) {
        return false;
    }
    let last = run_ends::last_run_end::<N>(body, at, n);
    reach <= last.0
}

// The rule of a run-end node with run ends of N: the run ends are the next node, the values the one after.
pub fn run_end_rule<N: Unsigned>(lengths: &[u64], places: &[u64], body: &[u8], k: usize) -> bool
    requires { Counted (tables lengths.now places.now body.now) k × Counted (tables lengths.now places.now body.now) (k + 1) × (k + 2 < 2 ^ 33) }
    ensures { result ≡ run_end_rule (tables (was lengths) (was places) (was body)) k N.SIZE }
{
    if !runs_valid(lengths, places, body, k) {
        return false;
    }
    let e = k + 1;
    let at = lent_tables::place(places, e, 3);
    let start = part_start(body, at);
    let size = lent_tables::part_len(body, at, lent_tables::place(places, e, 4));
    let off = lent_tables::offset_of(lengths, e);
    let len = lent_tables::length_of(lengths, e);
    let reach = lent_tables::count_of(lengths, k);
    if !ends::<N>(body, start, size, off, len, reach) {
        return false;
    }
    lent_tables::length_of(lengths, k + 2) == lent_tables::length_of(lengths, e)
}
