// Where parts lie: inside the room, and two nonempty ones apart (ground 14).
ghost use Rattle.std.specs.Prelude.{◌≡◌, ◌≤◌, ◌<◌};
ghost use Rattle.clauses.specs.Slices.{was};
ghost use Rattle.columnar.specs.Test.{every};
ghost use Rattle.plan.specs.parts.Parts.{in_room, apart, parts_placed};

use array_data::lent_tables;

// Whether part p lies in the room.
pub fn in_room(parts: &[u64], m: usize, p: usize) -> bool
    requires { p < 4294967298 }
    ensures { result ≡ in_room (was parts) m p }
{
    let start = lent_tables::at_u64(parts, 2 * p);
    let size = lent_tables::at_u64(parts, 2 * p + 1);
    lent_tables::fits(start, size, m as u64)
}

// Whether part p or part q is empty, or one lies behind the other.
fn are_apart(parts: &[u64], p: usize, q: usize) -> bool
    requires { (p < 96) × (q < 96) }
    ensures { result ≡ apart (was parts) p q }
{
    let size = lent_tables::at_u64(parts, 2 * p + 1);
    let other_size = lent_tables::at_u64(parts, 2 * q + 1);
    if (size == 0) | (other_size == 0) {
        return true;
    }
    let start = lent_tables::at_u64(parts, 2 * p);
    let other = lent_tables::at_u64(parts, 2 * q);
    let before = lent_tables::fits(start, size, other);
    let behind = lent_tables::fits(other, other_size, start);
    before | behind
}

// Whether part p is apart from the parts before it.
fn is_apart(parts: &[u64], p: usize) -> bool
    requires { p < 96 }
    ensures { result ≡ every (λ q. apart (was parts) p q) p }
{
    for q in 0..p {
        if !are_apart(parts, p, q) {
            return false;
        }
    }
    true
}

// Whether every part lies in the room.
fn all_in_room(parts: &[u64], m: usize, count: usize) -> bool
    requires { count ≤ 96 }
    ensures { result ≡ every (in_room (was parts) m) count }
{
    for p in 0..count {
        if !in_room(parts, m, p) {
            return false;
        }
    }
    true
}

// Whether no two nonempty parts overlap.
fn all_apart(parts: &[u64], count: usize) -> bool
    requires { count ≤ 96 }
    ensures { result ≡ every (λ p. every (λ q. apart (was parts) p q) p) count }
{
    for p in 0..count {
        if !is_apart(parts, p) {
            return false;
        }
    }
    true
}

// Whether these are the parts of an opening, in the room and apart: ground 14 where not.
pub fn parts_placed(parts: &[u64], count: usize, m: usize) -> bool
    requires { count ≤ 96 }
    ensures { result ≡ parts_placed (was parts) count m }
{
    if parts.len() != 2 * count {
        return false;
    }
    if !all_in_room(parts, m, count) {
        return false;
    }
    all_apart(parts, count)
}
