// Ranges, two numbers a node: the first of its rows that is written, and how many are.
ghost use Rattle.std.specs.Prelude.{◌≡◌, cond, List, ℕ, ◌<◌, ◌≤◌};
ghost use Rattle.clauses.specs.Slices.{was, left};
ghost use Rattle.schema.specs.Tree.{child_at};
ghost use Rattle.array_data.specs.Tables.{length_of};
ghost use Rattle.array_data.specs.entries.Entries.{column};
ghost use Rattle.width_walks.specs.Nodes.{range};
ghost use Rattle.width_loop.specs.Here.{SettlesChildren};

use array_data::entries;

// The rows of node k: n from row a on.
pub fn set_range(ranges: &mut [u64; 64], k: usize, a: u64, n: u64)
    requires { k < 32 }
    ensures { ranges.new ≡ range k a n ranges.old }
{
    ranges[2 * k] = a;
    ranges[2 * k + 1] = n;
}

// The rows of the child k of a union: all of its own, or n from row s on.
fn set_child(
    lengths: &[u64],
    first: u32,
    ranges: &mut [u64; 64],
    k: usize,
    whole: bool,
    s: u64,
    n: u64,
)
    requires { k < 32 }
    ensures { (places buffers body : List ℕ) → ranges.new ≡ range k (cond whole 0 s) (cond whole (length_of (column (was lengths) places buffers body first) k) n) ranges.old }
{
    if whole {
        set_range(ranges, k, 0, entries::length_at(lengths, first, k));
        return;
    }
    set_range(ranges, k, s, n);
}

// The rows of the m children of the union at node i.
pub fn settle_fields(
    schema: &[u32],
    lengths: &[u64],
    first: u32,
    count: usize,
    ranges: &mut [u64; 64],
    i: usize,
    m: usize,
    whole: bool,
    s: u64,
    n: u64,
)
    requires count_bound { (count ≤ 32) × (i < count) }
    requires by_index { (j : ℕ) → j < m → child_at schema.now first count i j < 32 }
    ensures { SettlesChildren schema lengths first count whole s n i m ranges }
{
    let mut node = i + 1;
    for _j in 0..m {
        set_child(lengths, first, ranges, node, whole, s, n);
        node = schema::end_of(schema, first as usize, count, node);
    }
}
