// What calls that read one or two lent columns outside a join ask first.
ghost use Rattle.std.specs.Prelude.{◌≡◌, []};
ghost use Rattle.clauses.specs.Slices.{was};
ghost use Rattle.array_data.specs.lent_tables.Lent.{tables};
ghost use Rattle.source_rules.specs.kinds.Rows.{tables_of};
ghost use Rattle.columns.specs.Grounds.{column_ground};
ghost use Rattle.columns.specs.column_pair.Pair.{pair_ground, plain_code, range_in};

use array_data::lent_tables;

// The lesser ground that is not 0.
fn first_ground(g: u8, h: u8) -> u8
    ensures { result ≡ pair_ground g h }
{
    if g == 0 {
        return h;
    }
    if h == 0 {
        return g;
    }
    if h < g { h } else { g }
}

// THE GROUND OF TWO COLUMNS of the same tables: 9 of both, 10 of both, 12 of both, and 0 where both are accepted.
pub fn pair_ground(
    formats: &[u8],
    schema: &[u32],
    lengths: &[u64],
    places: &[u64],
    buffers: &[u64],
    body: &[u8],
    first_a: u32,
    n_a: u32,
    first_b: u32,
    n_b: u32,
) -> u8
    ensures { let g = column_ground (was formats) (was schema) (tables_of (was lengths) (was places) (was buffers) (was body)) in result ≡ pair_ground (g first_a n_a) (g first_b n_b) }
{
    let g = crate::column_ground(
        formats, schema, lengths, places, buffers, body, first_a, n_a,
    );
    let h = crate::column_ground(
        formats, schema, lengths, places, buffers, body, first_b, n_b,
    );
    first_ground(g, h)
}

// The format's code of a column that is one node, and 0 of every other.
pub fn plain_code(formats: &[u8], schema: &[u32], first: u32, n: u32) -> u8
    ensures { result ≡ plain_code (was formats) (was schema) first n }
{
    if n != 1 {
        return 0;
    }
    schema::code_of(formats, schema, first as usize, 0)
}

// Whether start .. end is a range of the rows of the column that begins at node `first`: ground 2 where not.
pub fn is_range(lengths: &[u64], first: u32, start: u64, end: u64) -> bool
    ensures { result ≡ range_in (tables (was lengths) [] []) first start end }
{
    if end < start {
        return false;
    }
    end <= lent_tables::length_of(lengths, first as usize)
}
