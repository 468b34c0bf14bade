// The places of the nodes of the finished array: where its buffers begin, and their bytes.
// Follows `into_builder` of arrow-data 60.1.0 src/transform/mod.rs, Apache-2.0; see NOTICE.
ghost use Rattle.std.specs.Prelude.{◌≡◌, true, cond, List, [], ℕ, ◌+◌, ◌*◌, ◌<◌, ◌≤◌, length, eqb};
ghost use Rattle.clauses.specs.Slices.{was, left};
ghost use Rattle.walk.specs.State.{code_of, top};
ghost use Rattle.walk.specs.Log.{start_of};
ghost use Rattle.schema.specs.formats.Code.{is_view};
ghost use Rattle.plan.specs.parts.Parts.{nodes_of, has_part, needed_by, needed};
ghost use Rattle.refinement.specs.finishing.Finish.{nulls_at, null_table, buffer_start, buffer_size, copied_place, kept_place, place_at, place_table};
ghost use Rattle.into_builder.specs.buffers.Names.{lent, count_at, count_before, AnyOther, AnyBody};
ghost use Rattle.into_builder.specs.counts.Counts.{zeros_of};
ghost use Rattle.into_builder.specs.places.Places.{Placed, valid_place};

use crate::{buffers, counts};
use array_data::lent_tables;
use plan::dictionaries;
use walk::plan_words;

// ---- the bytes of each buffer

// The bytes of the first buffer of r rows.
fn first_size(code: u8, r: u64) -> u64
    requires { needed_by code r 0 1 ≤ top }
    ensures { result ≡ needed_by code r 0 1 }
{
    if schema::formats::is_string(code) | schema::formats::is_list(code) {
        let w = schema::formats::width_of(code) as u64;
        return r * w + w;
    }
    r * (plan::parts::entry_size(code) as u64)
}

// The bytes of the second buffer of r rows with n bytes of data.
fn second_size(code: u8, r: u64, n: u64) -> u64
    requires { needed_by code r n 2 ≤ top }
    ensures { result ≡ needed_by code r n 2 }
{
    if schema::formats::is_string(code) {
        return n;
    }
    if schema::formats::is_list_view(code) {
        return r * (schema::formats::width_of(code) as u64);
    }
    r * 4
}

// The bytes of buffer b of node i.
fn part_size(plan: &[u64], counters: &[u64], i: usize, b: usize) -> u64
    requires { (i < 32) × (b < 3) × (needed plan.now counters.now i b ≤ top) }
    ensures { result ≡ needed (was plan) (was counters) i b }
{
    let r = lent_tables::at_u64(counters, 3 * i);
    if b == 0 {
        return utils::bit_room(r as usize) as u64;
    }
    let code = plan_words::code_of(plan, i);
    if b == 1 {
        return first_size(code, r);
    }
    second_size(code, r, lent_tables::at_u64(counters, 3 * i + 2))
}

// ---- places

// Number j of the validity of node i.
fn valid_place(
    plan: &[u64],
    parts: &[u64],
    counters: &[u64],
    base: u64,
    zeros: u64,
    i: usize,
    j: usize,
) -> u64
    requires { (i < 32) × (j < 3) × Placed plan.now parts.now counters.now base i }
    ensures { (room : List ℕ) → zeros ≡ zeros_of (was plan) (was parts) (was counters) room i → result ≡ cond (eqb zeros 0) 0 (valid_place (was plan) (was parts) (was counters) base i j) }
{
    if !plan::parts::has_part(plan, i, 0) {
        return 0;
    }
    if zeros == 0 {
        return 0;
    }
    if j == 0 {
        return 1;
    }
    if j == 1 {
        return base + counts::part_start(plan, parts, i, 0);
    }
    part_size(plan, counters, i, 0)
}

// Where buffer b of node i begins; 0 where there is none.
fn buffer_start(plan: &[u64], parts: &[u64], base: u64, i: usize, b: usize) -> u64
    requires { (i < 32) × (b < 3) × (has_part plan.now i b ≡ true → base + start_of plan.now parts.now i b ≤ top) }
    ensures { result ≡ buffer_start (lent (was plan) (was parts) [] [] [] []) [] [] [] base i b }
{
    if !plan::parts::has_part(plan, i, b) {
        return 0;
    }
    base + counts::part_start(plan, parts, i, b)
}

// The bytes of buffer b of node i; 0 where there is none.
fn buffer_size(plan: &[u64], counters: &[u64], i: usize, b: usize) -> u64
    requires { (i < 32) × (b < 3) × (has_part plan.now i b ≡ true → needed plan.now counters.now i b ≤ top) }
    ensures { result ≡ buffer_size (lent (was plan) [] [] [] [] []) [] (was counters) [] 0 i b }
{
    if !plan::parts::has_part(plan, i, b) {
        return 0;
    }
    part_size(plan, counters, i, b)
}

// Number j, 7 or 8, of node i: its first data buffer and how many it names; 0 where it is no view node.
fn view_place(plan: &[u64], sources: &[u32], places: &[u64], i: usize, j: usize) -> u64
    requires { i < nodes_of plan.now }
    ensures { result ≡ cond (is_view (code_of (was plan) i)) (cond (eqb j 7) (count_before (was plan) (was sources) (was places) i) (count_at (was plan) (was sources) (was places) i)) 0 }
{
    if !schema::formats::is_view(plan_words::code_of(plan, i)) {
        return 0;
    }
    if j == 7 {
        return buffers::count_before(plan, sources, places, i);
    }
    buffers::count_at(plan, sources, places, i)
}

// Number j of the nine of node i, whose buffers are copied.
fn copied_place(
    plan: &[u64],
    parts: &[u64],
    sources: &[u32],
    places: &[u64],
    counters: &[u64],
    base: u64,
    zeros: u64,
    i: usize,
    j: usize,
) -> u64
    requires { (i < nodes_of plan.now) × (j < 9) × Placed plan.now parts.now counters.now base i }
    ensures { AnyBody plan parts sources places (λ l buffers room. zeros ≡ zeros_of (was plan) (was parts) (was counters) room i → result ≡ copied_place l buffers (was counters) room base i j) }
{
    if j < 3 {
        return valid_place(plan, parts, counters, base, zeros, i, j);
    }
    if j == 3 {
        return buffer_start(plan, parts, base, i, 1);
    }
    if j == 4 {
        return buffer_size(plan, counters, i, 1);
    }
    if j == 5 {
        return buffer_start(plan, parts, base, i, 2);
    }
    if j == 6 {
        return buffer_size(plan, counters, i, 2);
    }
    view_place(plan, sources, places, i, j)
}

// Number j of the nine of node i, a kept dictionary with `count` nulls: the places of source 0, those of its validity only if a bit is 0.
fn kept_place(sources: &[u32], places: &[u64], count: u64, i: usize, j: usize) -> u64
    requires { (i < 32) × (j < 9) }
    ensures { (plan : List ℕ) → AnyOther plan (was sources) (was places) (λ l b c m base. count ≡ nulls_at l b c m base i → result ≡ kept_place l b c m base i j) }
{
    let k = dictionaries::node_of(sources, 0, i);
    if j < 3 {
        if count == 0 {
            return 0;
        }
        return lent_tables::place(places, k, j);
    }
    if j < 7 {
        return lent_tables::place(places, k, j);
    }
    0
}

// Number j of the nine of node i.
fn place_at(
    plan: &[u64],
    parts: &[u64],
    sources: &[u32],
    places: &[u64],
    counters: &[u64],
    base: u64,
    nulls: &[u64],
    i: usize,
    j: usize,
) -> u64
    requires { (i < nodes_of plan.now) × (j < 9) × Placed plan.now parts.now counters.now base i }
    ensures { AnyBody plan parts sources places (λ l buffers room. was nulls ≡ null_table l [] (was counters) room 0 → result ≡ place_at l buffers (was counters) room base i j) }
{
    let count = lent_tables::at_u64(nulls, i);
    if plan::parts::is_copied(plan, i) {
        return copied_place(plan, parts, sources, places, counters, base, count, i, j);
    }
    kept_place(sources, places, count, i, j)
}

// The places of every node.
pub fn write_places(
    plan: &[u64],
    parts: &[u64],
    sources: &[u32],
    places: &[u64],
    counters: &[u64],
    base: u64,
    nulls: &[u64],
    table: &mut [u64],
)
    requires { (length table.old ≡ 9 * nodes_of plan.now) × ((i : ℕ) → i < nodes_of plan.now → Placed plan.now parts.now counters.now base i) }
    ensures { AnyBody plan parts sources places (λ l buffers room. was nulls ≡ null_table l [] (was counters) room 0 → table.new ≡ place_table l buffers (was counters) room base) }
{
    let n = 9 * plan::parts::node_count(plan);
    for q in 0..n {
        table[q] = place_at(
            plan,
            parts,
            sources,
            places,
            counters,
            base,
            nulls,
            q / 9,
            q % 9,
        );
    }
}
