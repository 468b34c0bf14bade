// The rules of one source (ground 12; docs/FORMAT.md), node by node.
#![tactic(auto)]

pub mod kinds;
pub mod nodes;

ghost use Rattle.std.specs.Prelude.{◌≡◌, true, List, [], ℕ, ◌+◌, ◌*◌, ◌≤◌, ◌<◌, ◌^◌, get_or};
ghost use Rattle.std.proofs.Math.Option.{some};
ghost use Rattle.clauses.specs.Slices.{was};
ghost use Rattle.columnar.specs.Types.{Number};
ghost use Rattle.schema.specs.formats.Code.{is_union, is_sparse};
ghost use Rattle.schema.specs.formats.Types.{number_of};
ghost use Rattle.schema.specs.Tree.{child_at, code_of};
ghost use Rattle.columnar.specs.Formed.{OffsetWidth, RunWidth};
ghost use Rattle.array_data.specs.Tables.{length_of};
ghost use Rattle.array_data.specs.Rules.{string_rule, list_view_rule, list_rule, run_end_rule};
ghost use Rattle.array_data.specs.Typed.{tables_from, node_rule, source_rule};
ghost use Rattle.array_data.specs.type_tree.Lent.{tree_of};
ghost use Rattle.array_data.specs.lent_tables.Lent.{tables, Counted};
ghost use Rattle.source_rules.specs.kinds.Rows.{tables_of};
ghost use Rattle.source_rules.specs.Source.{Ready, number_rule};

use array_data::lent_tables;
use schema::union_ids;

// The rule of a node of a fixed-width format by its code: of numbers where it has no dictionary, and else of keys.
fn number_ok(lengths: &[u64], places: &[u64], body: &[u8], k: usize, code: u8, single: bool) -> bool
    requires { Counted (tables lengths.now places.now body.now) k × (k + 1 < 2 ^ 33) }
    ensures { (m : Number) → number_of code ≡ some m → result ≡ number_rule (tables (was lengths) (was places) (was body)) k single m }
{
    if single {
        return nodes::fixed_rule(lengths, places, body, k, schema::formats::width_of(code));
    }
    kinds::dictionary_rule(lengths, places, body, k, code)
}

// The rule of a node of byte strings with offsets of w bytes.
fn string_ok(lengths: &[u64], places: &[u64], body: &[u8], k: usize, w: u8) -> bool
    requires { Counted (tables lengths.now places.now body.now) k × OffsetWidth w }
    ensures { result ≡ string_rule (tables (was lengths) (was places) (was body)) k w }
{
    if w == 4 {
        return nodes::string_rule::<u32>(lengths, places, body, k);
    }
    nodes::string_rule::<u64>(lengths, places, body, k)
}

// The rule of a list-view node with offsets and sizes of w bytes.
fn list_view_ok(lengths: &[u64], places: &[u64], body: &[u8], k: usize, w: u8) -> bool
    requires { Counted (tables lengths.now places.now body.now) k × (k + 1 < 2 ^ 33) × OffsetWidth w }
    ensures { result ≡ list_view_rule (tables (was lengths) (was places) (was body)) k w }
{
    if w == 4 {
        return nodes::list_view_rule::<u32>(lengths, places, body, k);
    }
    nodes::list_view_rule::<u64>(lengths, places, body, k)
}

// The rule of a list node with offsets of w bytes.
fn list_ok(lengths: &[u64], places: &[u64], body: &[u8], k: usize, w: u8) -> bool
    requires { Counted (tables lengths.now places.now body.now) k × (k + 1 < 2 ^ 33) × OffsetWidth w }
    ensures { result ≡ list_rule (tables (was lengths) (was places) (was body)) k w }
{
    if w == 4 {
        return nodes::list_rule::<u32>(lengths, places, body, k);
    }
    nodes::list_rule::<u64>(lengths, places, body, k)
}

// The rule of a run-end node with run ends of w bytes.
fn run_end_ok(lengths: &[u64], places: &[u64], body: &[u8], k: usize, w: u8) -> bool
    requires { Counted (tables lengths.now places.now body.now) k × Counted (tables lengths.now places.now body.now) (k + 1) × (k + 2 < 2 ^ 33) × RunWidth w }
    ensures { result ≡ run_end_rule (tables (was lengths) (was places) (was body)) k w }
{
    if w == 2 {
        return nodes::run_end_rule::<u16>(lengths, places, body, k);
    }
    if w == 4 {
        return nodes::run_end_rule::<u32>(lengths, places, body, k);
    }
    nodes::run_end_rule::<u64>(lengths, places, body, k)
}

// The lengths of the first m children of node i, in field order.
fn field_lengths(
    schema: &[u32],
    lengths: &[u64],
    first: usize,
    n: usize,
    i: usize,
    m: usize,
) -> [u64; 16]
    requires { (first < 2 ^ 32) × (n ≤ 32) × (i < n) × (m ≤ 16) }
    ensures { (j : ℕ) → j < m → get_or result j 0 ≡ length_of (tables (was lengths) [] []) (first + child_at (was schema) first n i j) }
{
    let mut lens = [0u64; 16];
    let mut node = i + 1;
    for j in 0..m {
        lens[j] = lent_tables::length_of(lengths, first + node);
        node = schema::end_of(schema, first, n, node);
    }
    lens
}

// The rule of a union node, which has no data buffers.
fn union_ok(
    formats: &[u8],
    schema: &[u32],
    lengths: &[u64],
    places: &[u64],
    body: &[u8],
    first: usize,
    n: usize,
    i: usize,
    sparse: bool,
) -> bool
    requires { let c = code_of formats.now schema.now first i in Ready formats.now schema.now (tables lengths.now places.now body.now) first n × (i < n) × (is_union c ≡ true) × (sparse ≡ is_sparse c) }
    ensures { (buffers : List ℕ) → result ≡ node_rule (tree_of (was formats) (was schema) first n) (tables_from (tables_of (was lengths) (was places) buffers (was body)) first) i }
{
    let at = schema::get(schema, first + i, 0) as usize;
    let len = schema::get(schema, first + i, 1) as usize;
    let mut ids = [0u8; 16];
    let Some(count) = union_ids::union_ids(formats, at, len, &mut ids) else {
        return false;
    };
    let m = count as usize;
    let lens = field_lengths(schema, lengths, first, n, i, m);
    let front = 0;
    if sparse {
        return kinds::sparse_rule(lengths, places, body, first + i, &ids[front..m], &lens);
    }
    kinds::dense_rule(lengths, places, body, first + i, &ids[front..m], &lens)
}

// The rule of node i of a source.
fn node_ok(
    formats: &[u8],
    schema: &[u32],
    lengths: &[u64],
    places: &[u64],
    buffers: &[u64],
    body: &[u8],
    first: usize,
    n: usize,
    i: usize,
) -> bool
    requires { Ready formats.now schema.now (tables_of lengths.now places.now buffers.now body.now) first n × (i < n) }
    ensures { result ≡ node_rule (tree_of (was formats) (was schema) first n) (tables_from (tables_of (was lengths) (was places) (was buffers) (was body)) first) i }
{
    let k = first + i;
    let code = schema::code_of(formats, schema, first, i);
    if schema::formats::is_fixed(code) {
        let single = schema::dictionary_of(schema, first, i) == 0;
        return number_ok(lengths, places, body, k, code, single);
    }
    if schema::formats::is_view(code) {
        return kinds::view_rule(lengths, places, buffers, body, k);
    }
    if schema::formats::is_union(code) {
        return union_ok(
            formats,
            schema,
            lengths,
            places,
            body,
            first,
            n,
            i,
            schema::formats::is_sparse(code),
        );
    }
    if schema::formats::is_run_end(code) {
        let ends = schema::code_of(formats, schema, first, i + 1);
        return run_end_ok(lengths, places, body, k, schema::formats::width_of(ends));
    }
    let w = schema::formats::width_of(code);
    if schema::formats::is_string(code) {
        return string_ok(lengths, places, body, k, w);
    }
    if schema::formats::is_list(code) {
        return list_ok(lengths, places, body, k, w);
    }
    list_view_ok(lengths, places, body, k, w)
}

// Whether every node of a source obeys its rule: ground 12 where not.
pub fn source_ok(
    formats: &[u8],
    schema: &[u32],
    lengths: &[u64],
    places: &[u64],
    buffers: &[u64],
    body: &[u8],
    first: usize,
    n: usize,
) -> bool
    requires { Ready formats.now schema.now (tables_of lengths.now places.now buffers.now body.now) first n }
    ensures { result ≡ source_rule (tree_of (was formats) (was schema) first n) (tables_from (tables_of (was lengths) (was places) (was buffers) (was body)) first) }
{
    for i in 0..n {
        if !node_ok(formats, schema, lengths, places, buffers, body, first, n, i) {
            return false;
        }
    }
    true
}
