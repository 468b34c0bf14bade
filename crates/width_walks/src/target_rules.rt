// The test of a target type: a type tree that differs from a column's in the widths of byte strings, list-views, lists, run ends and keys alone.
ghost use Rattle.std.specs.Prelude.{◌≡◌, ◌<◌};
ghost use Rattle.clauses.specs.Slices.{was};
ghost use Rattle.schema.specs.Tree.{same_flag, same_formats};
ghost use Rattle.width_walks.specs.target_rules.Target.{is_ends, same_text, other_width, ends_at, like_formats, like_node, is_target};

use schema::union_ids;

// s, i or l.
fn is_ends(code: u8) -> bool
    ensures { result ≡ is_ends code }
{
    (code == 3) | (code == 5) | (code == 7)
}

// z and Z, or u and U.
fn is_same_text(c: u8, c2: u8) -> bool
    ensures { result ≡ same_text c c2 }
{
    schema::formats::is_string(c) & schema::formats::is_string(c2) & (c % 2 == c2 % 2)
}

// Whether two codes are of one kind of entries, in any widths.
fn is_other_width(keyed: bool, ended: bool, c: u8, c2: u8) -> bool
    ensures { result ≡ other_width keyed ended c c2 }
{
    let text = is_same_text(c, c2);
    let view = schema::formats::is_list_view(c) & schema::formats::is_list_view(c2);
    let list = schema::formats::is_list(c) & schema::formats::is_list(c2);
    let keys = keyed & schema::formats::is_integer(c) & schema::formats::is_integer(c2);
    let ends = ended & is_ends(c) & is_ends(c2);
    text | view | list | keys | ends
}

// Whether node i is run ends.
pub fn is_ends_at(formats: &[u8], schema: &[u32], first: usize, i: usize) -> bool
    requires { (first < 4294967296) × (i < 4294967296) }
    ensures { result ≡ ends_at (was formats) (was schema) first i }
{
    if i == 0 {
        return false;
    }
    schema::formats::is_run_end(schema::code_of(formats, schema, first, i - 1))
}

fn has_same_format(formats: &[u8], schema: &[u32], first: usize, first2: usize, i: usize) -> bool
    requires { (first < 4294967296) × (first2 < 4294967296) × (i < 4294967296) }
    ensures { result ≡ same_formats (was formats) (was schema) first first2 i }
{
    let at = schema::get(schema, first + i, 0) as usize;
    let len = schema::get(schema, first + i, 1) as usize;
    let at2 = schema::get(schema, first2 + i, 0) as usize;
    let len2 = schema::get(schema, first2 + i, 1) as usize;
    union_ids::same_format(formats, at, len, at2, len2)
}

// Whether the nodes i have the same format, or one of another width.
fn is_like_format(formats: &[u8], schema: &[u32], first: usize, first2: usize, i: usize) -> bool
    requires { (first < 4294967296) × (first2 < 4294967296) × (i < 4294967296) }
    ensures { result ≡ like_formats (was formats) (was schema) first first2 i }
{
    if has_same_format(formats, schema, first, first2, i) {
        return true;
    }
    let keyed = schema::dictionary_of(schema, first, i) == 1;
    let ended = is_ends_at(formats, schema, first, i);
    let c = schema::code_of(formats, schema, first, i);
    let c2 = schema::code_of(formats, schema, first2, i);
    is_other_width(keyed, ended, c, c2)
}

// Whether the two nodes have the same flag, or one that says nothing of the type.
fn has_same_flag(schema: &[u32], first: usize, first2: usize, i: usize) -> bool
    requires { (first < 4294967296) × (first2 < 4294967296) × (i < 4294967296) }
    ensures { result ≡ same_flag (was schema) first first2 i }
{
    if i == 0 {
        return true;
    }
    let values = schema::dictionary_of(schema, first, i - 1) == 1;
    let same = schema::flag_of(schema, first, i) == schema::flag_of(schema, first2, i);
    values | same
}

// Whether the nodes i of two trees differ in a width alone.
fn is_like_node(formats: &[u8], schema: &[u32], first: usize, first2: usize, i: usize) -> bool
    requires { (first < 4294967296) × (first2 < 4294967296) × (i < 4294967296) }
    ensures { result ≡ like_node (was formats) (was schema) first first2 i }
{
    let format = is_like_format(formats, schema, first, first2, i);
    let children = schema::children_of(schema, first, i) == schema::children_of(schema, first2, i);
    let dictionary = schema::dictionary_of(schema, first, i)
        == schema::dictionary_of(schema, first2, i);
    format & children & dictionary & has_same_flag(schema, first, first2, i)
}

// Whether n2 nodes from first2 on are a type that differs from that of n nodes from `first` on in the widths named alone: ground 10 where not.
pub fn is_target(
    formats: &[u8],
    schema: &[u32],
    first: usize,
    n: usize,
    first2: usize,
    n2: usize,
) -> bool
    requires { (first < 4294967296) × (n < 4294967296) × (first2 < 4294967296) }
    ensures { result ≡ is_target (was formats) (was schema) first n first2 n2 }
{
    if n != n2 {
        return false;
    }
    if !schema::is_within_ceilings(formats, schema, first2, n2) {
        return false;
    }
    if !schema::is_typed(formats, schema, first2, n2) {
        return false;
    }
    for node in 0..n {
        if !is_like_node(formats, schema, first, first2, node) {
            return false;
        }
    }
    true
}
