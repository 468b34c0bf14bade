// Lent type trees (docs/FORMAT.md): the nodes of a source in depth-first order, five numbers a node.
#![tactic(auto)]

pub mod formats;
pub mod union_ids;

ghost use Rattle.std.specs.Prelude.{◌≡◌, suc, ◌≤◌, ◌<◌, leb, eqb, ◌&&◌, ◌||◌};
ghost use Rattle.schema.specs.formats.Code.{is_integer, is_fixed, is_string, is_view, is_list_view, is_list, is_union, is_run_end};
ghost use Rattle.schema.specs.Tree.{field, flag, nullable, children, dictionary, below, bare, end_of, depth, whole, code_of, few_fields, values_shape, ends_shape, child_for_each, ids_of, shape, ceilings, typed, same_flag, same_formats, same_node, same_type};

// ---- the numbers of a node

// Number j of node k's five; 0 where the table is too short.
pub fn get(schema: &[u32], k: usize, j: usize) -> u32
    requires { (k < 8589934592) × (j < 5) }
    ensures { result ≡ field schema.now k j }
{
    let at = 5 * k + j;
    if at < schema.len() { schema[at] } else { 0 }
}

// The code of node i's format.
pub fn code_of(formats: &[u8], schema: &[u32], first: usize, i: usize) -> u8
    requires { (first < 4294967296) × (i < 4294967296) }
    ensures { result ≡ code_of formats.now schema.now first i }
{
    let at = get(schema, first + i, 0) as usize;
    let len = get(schema, first + i, 1) as usize;
    crate::formats::format_code(formats, at, len)
}

// 1 where node i is nullable and else 0.
pub fn flag_of(schema: &[u32], first: usize, i: usize) -> u32
    requires { (first < 4294967296) × (i < 4294967296) }
    ensures { result ≡ flag schema.now first i }
{
    get(schema, first + i, 2) / 2 % 2
}

pub fn nullable_of(schema: &[u32], first: usize, i: usize) -> bool
    requires { (first < 4294967296) × (i < 4294967296) }
    ensures { result ≡ nullable schema.now first i }
{
    flag_of(schema, first, i) == 1
}

pub fn children_of(schema: &[u32], first: usize, i: usize) -> u32
    requires { (first < 4294967296) × (i < 4294967296) }
    ensures { result ≡ children schema.now first i }
{
    get(schema, first + i, 3)
}

pub fn dictionary_of(schema: &[u32], first: usize, i: usize) -> u32
    requires { (first < 4294967296) × (i < 4294967296) }
    ensures { result ≡ dictionary schema.now first i }
{
    get(schema, first + i, 4)
}

// How many subtrees stand below node i: its children, or its dictionary's values.
pub fn below_of(schema: &[u32], first: usize, i: usize) -> u64
    requires { (first < 4294967296) × (i < 4294967296) }
    ensures value { result ≡ below schema.now first i }
    ensures upper_bound { result ≤ 4294967296 }
{
    let n = children_of(schema, first, i) as u64;
    if dictionary_of(schema, first, i) == 0 {
        n
    } else {
        n + 1
    }
}

// Whether node i has nothing below it.
fn is_bare(schema: &[u32], first: usize, i: usize) -> bool
    requires { (first < 4294967296) × (i < 4294967296) }
    ensures { result ≡ bare schema.now first i }
{
    let no_children = children_of(schema, first, i) == 0;
    let no_dictionary = dictionary_of(schema, first, i) == 0;
    no_children & no_dictionary
}

// ---- where subtrees end

// Where node i's subtree ends.
pub fn end_of(schema: &[u32], first: usize, n: usize, i: usize) -> usize
    requires { (first < 4294967296) × (n < 4294967296) }
    ensures { result ≡ end_of schema.now first n i }
{
    let mut due: u64 = 1;
    for k in i..n {
        if due == 0 {
            return k;
        }
        due = due - 1 + below_of(schema, first, k);
    }
    i.max(n)
}

// Whether the n nodes are one whole tree.
pub fn is_whole(schema: &[u32], first: usize, n: usize) -> bool
    requires { (first < 4294967296) × (n < 4294967296) }
    ensures { result ≡ whole schema.now first n }
{
    if n == 0 {
        return false;
    }
    let mut due: u64 = 1;
    for k in 0..n {
        if due == 0 {
            return false;
        }
        due = due - 1 + below_of(schema, first, k);
    }
    due == 0
}

// ---- the ceilings

// One more than the earlier nodes whose subtree node i is in: the root's is 1.
pub fn depth_of(schema: &[u32], first: usize, n: usize, i: usize) -> usize
    requires { (first < 4294967296) × (n < 4294967296) × (i < 4294967296) }
    ensures { result ≡ depth schema.now first n i }
{
    let mut d: usize = 1;
    for j in 0..i {
        if i < end_of(schema, first, n, j) {
            d += 1;
        }
    }
    d
}

// Whether node i is no union, or one of at most 16 fields.
fn has_few_fields(formats: &[u8], schema: &[u32], first: usize, i: usize) -> bool
    requires { (first < 4294967296) × (i < 4294967296) }
    ensures { result ≡ few_fields formats.now schema.now first i }
{
    if children_of(schema, first, i) <= 16 {
        return true;
    }
    !crate::formats::is_union(code_of(formats, schema, first, i))
}

// Whether node i's depth is at most 8: that of the first eight nodes is.
fn is_shallow(schema: &[u32], first: usize, n: usize, i: usize) -> bool
    requires { (first < 4294967296) × (n < 4294967296) × (i < 4294967296) }
    ensures { result ≡ leb (depth schema.now first n i) 8 }
{
    if i < 8 {
        return true;
    }
    depth_of(schema, first, n, i) <= 8
}

// Whether the tree has at most 32 nodes, depth 8 and 16 fields of a union: ground 9 where not.
pub fn is_within_ceilings(formats: &[u8], schema: &[u32], first: usize, n: usize) -> bool
    requires { (first < 4294967296) × (n < 4294967296) }
    ensures { result ≡ ceilings formats.now schema.now first n }
{
    if 32 < n {
        return false;
    }
    for i in 0..n {
        if !has_few_fields(formats, schema, first, i) {
            return false;
        }
        if !is_shallow(schema, first, n, i) {
            return false;
        }
    }
    true
}

// ---- the types that are admitted

// Whether node i can be a dictionary's values: numbers or byte strings.
fn is_values(formats: &[u8], schema: &[u32], first: usize, i: usize) -> bool
    requires { (first < 4294967296) × (i < 4294967296) }
    ensures { result ≡ values_shape formats.now schema.now first i }
{
    let code = code_of(formats, schema, first, i);
    (crate::formats::is_fixed(code) | crate::formats::is_string(code)) & is_bare(schema, first, i)
}

// Whether node i can be run ends: s, i or l.
fn is_ends(formats: &[u8], schema: &[u32], first: usize, i: usize) -> bool
    requires { (first < 4294967296) × (i < 4294967296) }
    ensures { result ≡ ends_shape formats.now schema.now first i }
{
    let code = code_of(formats, schema, first, i);
    ((code == 3) | (code == 5) | (code == 7)) & is_bare(schema, first, i)
}

// Numbers, byte strings and views, by node i's code.
fn is_leaf(code: u8, schema: &[u32], first: usize, i: usize) -> bool
    requires { (first < 4294967296) × (i < 4294967296) }
    ensures { result ≡ ((is_fixed code || is_string code || is_view code) && bare schema.now first i) }
{
    (crate::formats::is_fixed(code)
        | crate::formats::is_string(code)
        | crate::formats::is_view(code))
        & is_bare(schema, first, i)
}

// Keys with a dictionary.
fn is_keys(code: u8, formats: &[u8], schema: &[u32], first: usize, i: usize) -> bool
    requires { (first < 4294967296) × (i < 4294967295) }
    ensures { let s = schema.now in result ≡ (is_integer code && eqb (children s first i) 0 && eqb (dictionary s first i) 1 && values_shape formats.now s first (suc i)) }
{
    let kind = crate::formats::is_integer(code);
    let childless = children_of(schema, first, i) == 0;
    let a_dictionary = dictionary_of(schema, first, i) == 1;
    if !(kind & childless & a_dictionary) {
        return false;
    }
    is_values(formats, schema, first, i + 1)
}

// List-views and lists with one child.
fn is_list(code: u8, schema: &[u32], first: usize, i: usize) -> bool
    requires { (first < 4294967296) × (i < 4294967296) }
    ensures { result ≡ ((is_list_view code || is_list code) && eqb (children schema.now first i) 1 && eqb (dictionary schema.now first i) 0) }
{
    let kind = crate::formats::is_list_view(code) | crate::formats::is_list(code);
    let one_child = children_of(schema, first, i) == 1;
    let no_dictionary = dictionary_of(schema, first, i) == 0;
    kind & one_child & no_dictionary
}

// Whether node i has ids that a union may have, and a child for each.
fn has_child_for_each(formats: &[u8], schema: &[u32], first: usize, i: usize) -> bool
    requires { (first < 4294967296) × (i < 4294967296) }
    ensures { result ≡ child_for_each schema.now first (ids_of formats.now schema.now first i) i }
{
    let at = get(schema, first + i, 0) as usize;
    let len = get(schema, first + i, 1) as usize;
    let n = children_of(schema, first, i);
    let mut ids = [0u8; 16];
    let Some(k) = union_ids::union_ids(formats, at, len, &mut ids) else {
        return false;
    };
    k as u32 == n
}

// Unions with a child for each id.
fn is_union_node(code: u8, formats: &[u8], schema: &[u32], first: usize, i: usize) -> bool
    requires { (first < 4294967296) × (i < 4294967296) }
    ensures { result ≡ (is_union code && child_for_each schema.now first (ids_of formats.now schema.now first i) i && eqb (dictionary schema.now first i) 0) }
{
    if !crate::formats::is_union(code) {
        return false;
    }
    let no_dictionary = dictionary_of(schema, first, i) == 0;
    has_child_for_each(formats, schema, first, i) & no_dictionary
}

// Run ends and values.
fn is_runs(code: u8, formats: &[u8], schema: &[u32], first: usize, i: usize) -> bool
    requires { (first < 4294967296) × (i < 4294967295) }
    ensures { let s = schema.now in result ≡ (is_run_end code && eqb (children s first i) 2 && eqb (dictionary s first i) 0 && ends_shape formats.now s first (suc i)) }
{
    let kind = crate::formats::is_run_end(code);
    let two_children = children_of(schema, first, i) == 2;
    let no_dictionary = dictionary_of(schema, first, i) == 0;
    if !(kind & two_children & no_dictionary) {
        return false;
    }
    is_ends(formats, schema, first, i + 1)
}

// Whether node i and what stands below it are of a type that is admitted.
pub fn is_shaped(formats: &[u8], schema: &[u32], first: usize, i: usize) -> bool
    requires { (first < 4294967296) × (i < 4294967295) }
    ensures { result ≡ shape formats.now schema.now first i }
{
    let code = code_of(formats, schema, first, i);
    if is_leaf(code, schema, first, i) {
        return true;
    }
    if is_keys(code, formats, schema, first, i) {
        return true;
    }
    if is_list(code, schema, first, i) {
        return true;
    }
    if is_union_node(code, formats, schema, first, i) {
        return true;
    }
    is_runs(code, formats, schema, first, i)
}

// Whether the nodes are one whole tree of a type that is admitted: ground 10 where not.
pub fn is_typed(formats: &[u8], schema: &[u32], first: usize, n: usize) -> bool
    requires { (first < 4294967296) × (n < 4294967296) }
    ensures { result ≡ typed formats.now schema.now first n }
{
    if !is_whole(schema, first, n) {
        return false;
    }
    for i in 0..n {
        if !is_shaped(formats, schema, first, i) {
            return false;
        }
    }
    true
}

// ---- the same type

// Whether the two nodes have the same flag, or one that says nothing of the type: the root's, and that of a dictionary's values.
fn has_same_flag(schema: &[u32], first: usize, first2: usize, i: usize) -> bool
    requires { (first < 4294967296) × (first2 < 4294967296) × (i < 4294967296) }
    ensures { result ≡ same_flag schema.now first first2 i }
{
    if i == 0 {
        return true;
    }
    let values = dictionary_of(schema, first, i - 1) == 1;
    let same = flag_of(schema, first, i) == flag_of(schema, first2, i);
    values | same
}

fn has_same_format(formats: &[u8], schema: &[u32], first: usize, first2: usize, i: usize) -> bool
    requires { (first < 4294967296) × (first2 < 4294967296) × (i < 4294967296) }
    ensures { result ≡ same_formats formats.now schema.now first first2 i }
{
    let at = get(schema, first + i, 0) as usize;
    let len = get(schema, first + i, 1) as usize;
    let at2 = get(schema, first2 + i, 0) as usize;
    let len2 = get(schema, first2 + i, 1) as usize;
    union_ids::same_format(formats, at, len, at2, len2)
}

// Whether the nodes i of two trees are of the same type.
fn is_same_node(formats: &[u8], schema: &[u32], first: usize, first2: usize, i: usize) -> bool
    requires { (first < 4294967296) × (first2 < 4294967296) × (i < 4294967296) }
    ensures { result ≡ same_node formats.now schema.now first first2 i }
{
    let format = has_same_format(formats, schema, first, first2, i);
    let children = children_of(schema, first, i) == children_of(schema, first2, i);
    let dictionary = dictionary_of(schema, first, i) == dictionary_of(schema, first2, i);
    format & children & dictionary & has_same_flag(schema, first, first2, i)
}

// Whether two trees are of the same type: ground 11 where not.
pub fn same_type(
    formats: &[u8],
    schema: &[u32],
    first: usize,
    n: usize,
    first2: usize,
    n2: usize,
) -> bool
    requires { (first < 4294967296) × (n < 4294967296) × (first2 < 4294967296) }
    ensures { result ≡ same_type formats.now schema.now first n first2 n2 }
{
    if n != n2 {
        return false;
    }
    for node in 0..n {
        if !is_same_node(formats, schema, first, first2, node) {
            return false;
        }
    }
    true
}
