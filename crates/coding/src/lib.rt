// A fixed-width column into runs, and back (02, W1): the calls, over lent memory.
#![tactic(auto)]

pub mod encode;
pub mod encode_rows;
pub mod expand;
pub mod expand_rows;
pub mod row_plan;
pub mod run_coding;

ghost use Rattle.std.specs.Prelude.{◌≡◌, [], ◌+◌, ◌*◌, ◌<◌, ◌^◌, ltb};
ghost use Rattle.clauses.specs.Slices.{was};
ghost use Rattle.columnar.specs.Types.{half};
ghost use Rattle.array_data.specs.Tables.{offset_of, place};
ghost use Rattle.array_data.specs.entries.Entries.{column};
ghost use Rattle.walk.specs.Log.{start_of};
ghost use Rattle.coding.specs.Encode.{plain_at};

use crate::run_coding::Slots;
use array_data::{entries, lent_tables};
use walk::plan_words;

// Whether node i holds numbers and not keys.
pub fn is_plain(formats: &[u8], schema: &[u32], first: u32, i: usize) -> bool
    requires { i < 2 ^ 32 }
    ensures { result ≡ plain_at (was formats) (was schema) first i }
{
    if !schema::formats::is_fixed(schema::code_of(formats, schema, first as usize, i)) {
        return false;
    }
    schema::dictionary_of(schema, first as usize, i) == 0
}

// Whether run ends of w bytes hold m.
pub fn ends_hold(w: u8, m: u64) -> bool
    requires { (w ≡ 2 → ⊥) → (w ≡ 4 → ⊥) → w ≡ 8 }
    ensures { result ≡ ltb m (half w) }
{
    match w {
        2 => m < 32768,
        4 => m < 2147483648,
        _ => m < 9223372036854775808,
    }
}

// Where the rows of w bytes of node i stand, from row `start` on.
pub fn slots_of(lengths: &[u64], places: &[u64], first: u32, i: usize, w: u8, start: u64) -> Slots
    requires { let x = column lengths.now places.now [] [] first in (i < 2 ^ 32) × (offset_of x i + start < 2 ^ 64) × (place x i 3 + (offset_of x i + start) * w < 2 ^ 64) }
    ensures { let x = column (was lengths) (was places) [] [] first in (result.start ≡ place x i 3 + (offset_of x i + start) * w) × (result.mask ≡ place x i 1) × (result.bit ≡ offset_of x i + start) }
{
    let bit = (entries::offset_at(lengths, first, i) + start) as usize;
    let at = entries::place_at(places, first, i, 3) as usize;
    let mask = entries::place_at(places, first, i, 1) as usize;
    Slots {
        start: at + bit * (w as usize),
        mask,
        bit,
    }
}

// Where the part of buffer b of node i starts; buffer 0 is the validity.
pub fn start_of(plan: &[u64], parts: &[u64], i: usize, b: usize) -> u64
    requires { (i < 32) × (b < 3) }
    ensures { result ≡ start_of (was plan) (was parts) i b }
{
    let p = plan_words::part_of(plan, i) + b;
    if p == 0 {
        return lent_tables::at_u64(parts, 0);
    }
    lent_tables::at_u64(parts, 2 * (p - 1))
}
