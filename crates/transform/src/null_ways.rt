// Types whose orders go a shorter way.
ghost use Rattle.std.specs.Prelude.{◌≡◌, true, ◌<◌};
ghost use Rattle.clauses.specs.Slices.{was};
ghost use Rattle.transform.specs.numbers.Plan.{one_of_numbers, kept_keys, first_of_numbers, numbers_at, runs_of_numbers, list_of_numbers};

use crate::numbers;
use nested_rows::node_data;
use walk::plan_words;

// No shorter way; numbers or keys; run ends over numbers; a list of numbers.
pub const OTHER: u8 = 0;

pub const NUMBERS: u8 = 1;

pub const RUNS: u8 = 2;

pub const LISTS: u8 = 3;
// The last code of a leaf, and of numbers of one byte.
const LAST_LEAF: u8 = 16;

const LAST_OF_ONE_BYTE: u8 = 2;

// Whether the type is keys whose dictionary is kept, with values that are a leaf.
fn is_kept_keys(plan: &[u64]) -> bool
    ensures { result ≡ true → kept_keys (was plan) ≡ true }
{
    if plan::parts::node_count(plan) != 2 {
        return false;
    }
    if plan_words::end_of(plan, 0) != 2 {
        return false;
    }
    if plan_words::end_of(plan, 1) != 2 {
        return false;
    }
    if plan_words::dictionary_of(plan, 1) != 0 {
        return false;
    }
    if LAST_LEAF < plan_words::code_of(plan, 1) {
        return false;
    }
    if plan::parts::is_copied(plan, 1) {
        return false;
    }
    schema::formats::is_fixed(plan_words::code_of(plan, 0))
}

// Whether node i is of numbers without a dictionary.
fn is_numbers_at(plan: &[u64], i: usize) -> bool
    requires { i < 31 }
    ensures { result ≡ true → numbers_at (was plan) i ≡ true }
{
    if plan_words::end_of(plan, i) != i + 1 {
        return false;
    }
    if plan_words::dictionary_of(plan, i) != 0 {
        return false;
    }
    schema::formats::is_fixed(plan_words::code_of(plan, i))
}

// Whether the type is run ends over numbers.
fn is_runs(plan: &[u64]) -> bool
    ensures { result ≡ true → runs_of_numbers (was plan) ≡ true }
{
    if plan::parts::node_count(plan) != 3 {
        return false;
    }
    if plan_words::code_of(plan, 0) != node_data::RUN_END {
        return false;
    }
    if plan_words::dictionary_of(plan, 0) != 0 {
        return false;
    }
    if plan_words::end_of(plan, 0) != 3 {
        return false;
    }
    if !is_numbers_at(plan, 1) {
        return false;
    }
    if !is_numbers_at(plan, 2) {
        return false;
    }
    LAST_OF_ONE_BYTE < plan_words::code_of(plan, 1)
}

// Whether the type is a list of numbers.
fn is_list(plan: &[u64]) -> bool
    ensures { result ≡ true → list_of_numbers (was plan) ≡ true }
{
    if plan::parts::node_count(plan) != 2 {
        return false;
    }
    if !schema::formats::is_list(plan_words::code_of(plan, 0)) {
        return false;
    }
    if plan_words::dictionary_of(plan, 0) != 0 {
        return false;
    }
    if plan_words::end_of(plan, 0) != 2 {
        return false;
    }
    is_numbers_at(plan, 1)
}

// The way of a type's copies.
pub fn copy_way(plan: &[u64]) -> u8
    ensures plan_value { result ≡ 1 → one_of_numbers (was plan) ≡ true }
    ensures plan_value_2 { result ≡ 3 → list_of_numbers (was plan) ≡ true }
{
    if numbers::is_numbers(plan) {
        return NUMBERS;
    }
    if is_list(plan) {
        return LISTS;
    }
    OTHER
}

// The way of its nulls.
pub fn way_of(plan: &[u64]) -> u8
    ensures plan_value { result ≡ 1 → first_of_numbers (was plan) ≡ true }
    ensures plan_value_2 { result ≡ 2 → runs_of_numbers (was plan) ≡ true }
    ensures plan_value_3 { result ≡ 3 → list_of_numbers (was plan) ≡ true }
{
    if numbers::is_numbers(plan) {
        return NUMBERS;
    }
    if is_kept_keys(plan) {
        return NUMBERS;
    }
    if is_runs(plan) {
        return RUNS;
    }
    if is_list(plan) {
        return LISTS;
    }
    OTHER
}
