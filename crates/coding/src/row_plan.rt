// The plan of a result of plain rows: its few words, where they are left, and the grounds of its room (02, W1).
ghost use Rattle.std.specs.Prelude.{◌≡◌, true, ◌≤◌, length};
ghost use Rattle.clauses.specs.Slices.{was, left};
ghost use Rattle.schema.specs.formats.Code.{is_fixed};
ghost use Rattle.plan.specs.parts.Parts.{parts_hold};
ghost use Rattle.anew.specs.Anew.{room_ground};
ghost use Rattle.coding.specs.Counted.{row_counts};
ghost use Rattle.coding.specs.Planned.{row_plan_of};

use anew::result_plan;
use array_data::lent_tables;
use walk::plan_words;

// What the plan of one node of numbers is made of: its code, 1 where it is nullable, 1 where it keeps nulls.
#[derive(Clone, Copy)]
pub struct Row {
    pub code: u8,
    pub nullable: u64,
    pub nulls: u64,
}

// The words of the plan; the others are 0.
pub fn write_words(row: Row, plan: &mut [u64])
    requires { (length plan.old ≡ 872) × (row.nulls ≤ 1) }
    ensures { plan.new ≡ row_plan_of row.code row.nullable row.nulls }
{
    plan.fill(0);
    let k = row.nulls;
    plan[0] = row.code as u64;
    plan[2] = 1;
    plan[4] = row.nullable;
    plan[plan_words::SOURCE_COUNT] = 1;
    plan[plan_words::NODE_COUNT] = 1;
    plan[5] = k;
    plan[6] = k;
    plan[plan_words::PART_COUNT] = 1 + k;
}

// The counters of m rows.
pub fn write_counters(m: u64, counters: &mut [u64])
    requires { length counters.old ≡ 96 }
    ensures { counters.new ≡ row_counts m }
{
    counters.fill(0);
    counters[0] = m;
}

// Whether the parts hold m rows: ground 13 where not.
fn rows_hold(row: Row, m: u64, parts: &[u64]) -> bool
    requires { (row.nulls ≤ 1) × (is_fixed row.code ≡ true) }
    ensures { result ≡ parts_hold (row_plan_of row.code row.nullable row.nulls) (row_counts m) (was parts) }
{
    let k = row.nulls as usize;
    let w = schema::formats::width_of(row.code);
    if !lent_tables::rows_fit(m, w, lent_tables::at_u64(parts, 2 * k + 1)) {
        return false;
    }
    if k == 0 {
        return true;
    }
    plan::parts::bits_fit(m, lent_tables::at_u64(parts, 1))
}

// 14 or 13 of the parts that are lent for m rows, where plan, counters and room have so many numbers and bytes; 0 where they can be written.
pub fn room_ground(
    row: Row,
    m: u64,
    parts: &[u64],
    words: usize,
    counters: usize,
    size: usize,
) -> u8
    requires { (row.nulls ≤ 1) × (is_fixed row.code ≡ true) }
    ensures { result ≡ room_ground (row_plan_of row.code row.nullable row.nulls) (row_counts m) (was parts) words counters size }
{
    if words != plan_words::WORDS {
        return 14;
    }
    if counters != plan_words::COUNTERS {
        return 14;
    }
    if !plan::placed::parts_placed(parts, 1 + row.nulls as usize, size) {
        return 14;
    }
    if !rows_hold(row, m, parts) {
        return 13;
    }
    0
}
