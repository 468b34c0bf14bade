// The converter between lists and list-views: which targets are due (this file), and for either way the question before any room is lent and the call.
// A result is finished as a join is.
#![tactic(auto)]

pub mod child_names;
pub mod lists;
pub mod to_list;
pub mod to_view;
pub mod views;

ghost use Rattle.std.specs.Prelude.{◌≡◌, false, ◌≤◌};
ghost use Rattle.clauses.specs.Slices.{was};
ghost use Rattle.array_data.specs.lent_tables.Lent.{tables};
ghost use Rattle.anew.specs.ResultPlan.{keeps_from, Comes, plan_anew};
ghost use Rattle.convert.specs.convert_lists.Turned.{list_of, view_of, same_below, to_list, to_view, all_nodes};

use walk::plan_words;

// The nodes that those of a result come from: each from that of its own number, and 1 more, since 0 stands for none.
const ALL_NODES: [u64; 32] = [
    1u64, 2, 3, 4, 5, 6, 7, 8, 9, 10, 11, 12, 13, 14, 15, 16, 17, 18, 19, 20, 21, 22, 23, 24, 25,
    26, 27, 28, 29, 30, 31, 32,
];

// Whether the roots are a list-view and a list of the same width.
fn is_list_of(formats: &[u8], schema: &[u32], first: u32, target: u32) -> bool
    ensures { result ≡ list_of (was formats) (was schema) first target }
{
    let code = schema::code_of(formats, schema, first as usize, 0);
    if !schema::formats::is_list_view(code) {
        return false;
    }
    let to = schema::code_of(formats, schema, target as usize, 0);
    if (to as u32) != (code as u32) + 2 {
        return false;
    }
    true
}

// .. or a list and a list-view.
fn is_view_of(formats: &[u8], schema: &[u32], first: u32, target: u32) -> bool
    ensures { result ≡ view_of (was formats) (was schema) first target }
{
    let code = schema::code_of(formats, schema, first as usize, 0);
    if !schema::formats::is_list(code) {
        return false;
    }
    let to = schema::code_of(formats, schema, target as usize, 0);
    if (to as u32) + 2 != (code as u32) {
        return false;
    }
    true
}

// Whether the target is an admitted type with a child of the column's child's type.
fn same_below(
    formats: &[u8],
    schema: &[u32],
    first: u32,
    n: u32,
    target: u32,
    target_n: u32,
) -> bool
    ensures { result ≡ same_below (was formats) (was schema) first n target target_n }
{
    if first == 4294967295 {
        return false;
    }
    if target == 4294967295 {
        return false;
    }
    let to = target as usize;
    if !schema::is_within_ceilings(formats, schema, to, target_n as usize) {
        return false;
    }
    if !schema::is_typed(formats, schema, to, target_n as usize) {
        return false;
    }
    if n != target_n {
        return false;
    }
    if n == 0 {
        return false;
    }
    let m = (n - 1) as usize;
    schema::same_type(formats, schema, to + 1, m, first as usize + 1, m)
}

// Whether the target is the list of this list-view: ground 10 where not.
pub fn is_list_due(
    formats: &[u8],
    schema: &[u32],
    first: u32,
    n: u32,
    target: u32,
    target_n: u32,
) -> bool
    ensures { result ≡ to_list (was formats) (was schema) first n target target_n }
{
    if !is_list_of(formats, schema, first, target) {
        return false;
    }
    same_below(formats, schema, first, n, target, target_n)
}

// Whether the target is the list-view of this list: ground 10 where not.
pub fn is_view_due(
    formats: &[u8],
    schema: &[u32],
    first: u32,
    n: u32,
    target: u32,
    target_n: u32,
) -> bool
    ensures { result ≡ to_view (was formats) (was schema) first n target target_n }
{
    if !is_view_of(formats, schema, first, target) {
        return false;
    }
    same_below(formats, schema, first, n, target, target_n)
}

// The plan of the result, each of whose n nodes comes from that of the same number.
fn planned(
    formats: &[u8],
    schema: &[u32],
    lengths: &[u64],
    places: &[u64],
    body: &[u8],
    first: u32,
    target: u32,
    n: u32,
) -> [u64; plan_words::WORDS]
    requires { (n ≤ 32) × Comes (tables lengths.now places.now body.now) first n all_nodes }
    ensures { result ≡ plan_anew (was formats) (was schema) target n (keeps_from (tables (was lengths) (was places) (was body)) first all_nodes) false 0 }
{
    let mut plan = [0u64; plan_words::WORDS];
    let from = ALL_NODES;
    anew::result_plan::plan_anew(
        formats,
        schema,
        target as usize,
        n as usize,
        lengths,
        places,
        body,
        first as usize,
        &from,
        false,
        0,
        &mut plan,
    );
    plan
}
