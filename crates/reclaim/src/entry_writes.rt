// Entries of a fixed width that stand one behind the other: those in use, by the ranks of their block.
ghost use Rattle.std.specs.Prelude.{◌≡◌, ◌+◌, ◌*◌, ◌≤◌, length};
ghost use Rattle.clauses.specs.Slices.{was, left};
ghost use Rattle.number.specs.Number.{splice};
ghost use Rattle.reclaim.specs.used_entries.Keys.{KeyWidth};
ghost use Rattle.reclaim.specs.used_entries.Chosen.{chosen, risen};

// The entries of w bytes at `to`, of the `count` at `from`, whose rank is below that of the next one.
fn write_each(
    room: &mut [u8],
    to: usize,
    body: &[u8],
    from: u64,
    w: u64,
    ranks: &[u64; 513],
    count: usize,
)
    requires { KeyWidth w × (count ≤ 512) × (from + w * count ≤ length body.now) × (to + length (chosen body.now from w (risen ranks.now) count) ≤ length room.old) }
    ensures { room.new ≡ splice to (chosen (was body) from w (risen (was ranks)) count) room.old }
{
    let mut o = to;
    for j in 0..count {
        if ranks[j] < ranks[j + 1] {
            let v = crate::used_entries::key_at(body, w, from, j as u64);
            crate::used_entries::write_number(room, o, w, v);
            o += w as usize;
        }
    }
}

// THE ENTRIES IN USE; a loop for each width.
pub fn write_used(
    room: &mut [u8],
    to: usize,
    body: &[u8],
    from: u64,
    w: u64,
    ranks: &[u64; 513],
    count: usize,
)
    requires { KeyWidth w × (count ≤ 512) × (from + w * count ≤ length body.now) × (to + length (chosen body.now from w (risen ranks.now) count) ≤ length room.old) }
    ensures { room.new ≡ splice to (chosen (was body) from w (risen (was ranks)) count) room.old }
{
    match w {
        1 => write_each(room, to, body, from, 1, ranks, count),
        2 => write_each(room, to, body, from, 2, ranks, count),
        4 => write_each(room, to, body, from, 4, ranks, count),
        _ => write_each(room, to, body, from, 8, ranks, count),
    }
}
