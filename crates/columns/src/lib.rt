// Whether lent columns (docs/FORMAT.md) are sources that a join takes, or which of the grounds 9 to 12 they meet.
#![tactic(auto)]

pub mod column_pair;

ghost use Rattle.std.specs.Prelude.{◌≡◌, true, [], ◌+◌, ◌*◌, ◌≤◌, ◌<◌, ◌^◌};
ghost use Rattle.clauses.specs.Slices.{was};
ghost use Rattle.array_data.specs.lent_tables.Lent.{tables};
ghost use Rattle.source_rules.specs.kinds.Rows.{tables_of};
ghost use Rattle.columns.specs.Grounds.{count_fits, few_buffers, node_fits, small_body, within_ceilings, column_ground, few_sources, all_within, all_typed, all_same, all_obey, sources_ground};
ghost use Rattle.array_data.specs.Sources.{first_of, nodes_of};
ghost use Rattle.columnar.specs.Test.{every};

use array_data::lent_tables;

// The most bytes of a body or a room.
pub const CEILING: usize = 9223372036854775807;

// ---- ground 9

// Whether length and offset of node k are not negative and their sum is at most 2^63 - 1.
fn count_fits(lengths: &[u64], k: usize) -> bool
    requires { k < 2 ^ 33 }
    ensures { result ≡ count_fits (tables (was lengths) [] []) k }
{
    let top: u64 = 9223372036854775807;
    let off = lent_tables::offset_of(lengths, k);
    if top < off {
        return false;
    }
    lent_tables::length_of(lengths, k) <= top - off
}

// Whether node i is no view node, or one of at most 32 data buffers.
fn has_few_buffers(formats: &[u8], schema: &[u32], places: &[u64], first: usize, i: usize) -> bool
    requires { (first < 2 ^ 32) × (i < 32) }
    ensures { result ≡ few_buffers (was formats) (was schema) (tables [] (was places) []) first i }
{
    if lent_tables::place(places, first + i, 8) <= 32 {
        return true;
    }
    !schema::formats::is_view(schema::code_of(formats, schema, first, i))
}

// Whether each of the n nodes has a length and an offset that are admitted, and not too many data buffers.
fn all_fit(
    formats: &[u8],
    schema: &[u32],
    lengths: &[u64],
    places: &[u64],
    first: usize,
    n: usize,
) -> bool
    requires { (first < 2 ^ 32) × (n ≤ 32) }
    ensures { result ≡ every (node_fits (was formats) (was schema) (tables (was lengths) (was places) []) first) n }
{
    for i in 0..n {
        if !count_fits(lengths, first + i) {
            return false;
        }
        if !has_few_buffers(formats, schema, places, first, i) {
            return false;
        }
    }
    true
}

// Whether a column passes no ceiling and has no negative length or offset.
fn is_within(
    formats: &[u8],
    schema: &[u32],
    lengths: &[u64],
    places: &[u64],
    first: u32,
    n: u32,
) -> bool
    ensures { result ≡ within_ceilings (was formats) (was schema) (tables (was lengths) (was places) []) first n }
{
    let from = first as usize;
    let nodes = n as usize;
    if !schema::is_within_ceilings(formats, schema, from, nodes) {
        return false;
    }
    all_fit(formats, schema, lengths, places, from, nodes)
}

// Whether a body has at most 2^63 - 1 bytes.
pub fn is_small(body: &[u8]) -> bool
    ensures { result ≡ small_body (was body) }
{
    body.len() <= CEILING
}

// THE GROUND OF ONE COLUMN of n nodes from node `first` on: 9, 10 or 12, and 0 where it is accepted.
pub fn column_ground(
    formats: &[u8],
    schema: &[u32],
    lengths: &[u64],
    places: &[u64],
    buffers: &[u64],
    body: &[u8],
    first: u32,
    n: u32,
) -> u8
    ensures { result ≡ column_ground (was formats) (was schema) (tables_of (was lengths) (was places) (was buffers) (was body)) first n }
{
    if !is_small(body) {
        return 9;
    }
    if !is_within(formats, schema, lengths, places, first, n) {
        return 9;
    }
    let from = first as usize;
    let nodes = n as usize;
    if !schema::is_typed(formats, schema, from, nodes) {
        return 10;
    }
    if !source_rules::source_ok(formats, schema, lengths, places, buffers, body, from, nodes) {
        return 12;
    }
    0
}

// ---- all sources

// The first node of source s.
fn first_of(sources: &[u32], s: usize) -> u32
    requires { s < 2 ^ 62 }
    ensures { result ≡ first_of (was sources) s }
{
    lent_tables::at_u32(sources, 2 * s)
}

// How many nodes source s has.
fn nodes_of(sources: &[u32], s: usize) -> u32
    requires { s < 2 ^ 62 }
    ensures { result ≡ nodes_of (was sources) s }
{
    lent_tables::at_u32(sources, 2 * s + 1)
}

// Whether every source passes no ceiling: ground 9 where not.
fn all_within(
    sources: &[u32],
    formats: &[u8],
    schema: &[u32],
    lengths: &[u64],
    places: &[u64],
) -> bool
    ensures { result ≡ all_within (was formats) (was schema) (tables (was lengths) (was places) []) (was sources) }
{
    let m = sources.len() / 2;
    for s in 0..m {
        let first = first_of(sources, s);
        let nodes = nodes_of(sources, s);
        if !is_within(formats, schema, lengths, places, first, nodes) {
            return false;
        }
    }
    true
}

// Whether every source is of a type that is admitted: ground 10 where not.
fn all_typed(sources: &[u32], formats: &[u8], schema: &[u32]) -> bool
    ensures { result ≡ all_typed (was formats) (was schema) (was sources) }
{
    let m = sources.len() / 2;
    for s in 0..m {
        let first = first_of(sources, s) as usize;
        let nodes = nodes_of(sources, s) as usize;
        if !schema::is_typed(formats, schema, first, nodes) {
            return false;
        }
    }
    true
}

// Whether every source is of the first one's type: ground 11 where not.
fn all_same(sources: &[u32], formats: &[u8], schema: &[u32]) -> bool
    ensures { result ≡ all_same (was formats) (was schema) (was sources) }
{
    let first = first_of(sources, 0) as usize;
    let nodes = nodes_of(sources, 0) as usize;
    let m = sources.len() / 2;
    for s in 0..m {
        let first2 = first_of(sources, s) as usize;
        let nodes2 = nodes_of(sources, s) as usize;
        if !schema::same_type(formats, schema, first, nodes, first2, nodes2) {
            return false;
        }
    }
    true
}

// Whether every source obeys the rules of its nodes: ground 12 where not.
fn all_obey(
    sources: &[u32],
    formats: &[u8],
    schema: &[u32],
    lengths: &[u64],
    places: &[u64],
    buffers: &[u64],
    body: &[u8],
) -> bool
    requires { (all_within formats.now schema.now (tables lengths.now places.now []) sources.now ≡ true) × (all_typed formats.now schema.now sources.now ≡ true) }
    ensures { result ≡ all_obey (was formats) (was schema) (tables_of (was lengths) (was places) (was buffers) (was body)) (was sources) }
{
    let count = sources.len() / 2;
    for s in 0..count {
        let from = first_of(sources, s) as usize;
        let size = nodes_of(sources, s) as usize;
        if !source_rules::source_ok(formats, schema, lengths, places, buffers, body, from, size) {
            return false;
        }
    }
    true
}

// Whether there are 1 to 16 sources.
fn are_few(sources: &[u32]) -> bool
    ensures { result ≡ few_sources (was sources) }
{
    let m = sources.len() / 2;
    let some = 1 <= m;
    let few = m <= 16;
    some & few
}

// THE GROUND OF ALL SOURCES: 9 to 12, and 0 where they are accepted.
pub fn sources_ground(
    sources: &[u32],
    formats: &[u8],
    schema: &[u32],
    lengths: &[u64],
    places: &[u64],
    buffers: &[u64],
    body: &[u8],
) -> u8
    ensures { result ≡ sources_ground (was formats) (was schema) (tables_of (was lengths) (was places) (was buffers) (was body)) (was sources) }
{
    if !is_small(body) {
        return 9;
    }
    if !are_few(sources) {
        return 9;
    }
    if !all_within(sources, formats, schema, lengths, places) {
        return 9;
    }
    if !all_typed(sources, formats, schema) {
        return 10;
    }
    if !all_same(sources, formats, schema) {
        return 11;
    }
    if !all_obey(sources, formats, schema, lengths, places, buffers, body) {
        return 12;
    }
    0
}
