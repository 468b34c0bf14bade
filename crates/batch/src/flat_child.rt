// Children that keep no nulls, of numbers or of byte strings.
ghost use Rattle.std.specs.Prelude.{◌≡◌, Bool, true, List, ℕ, ◌<◌, ◌^◌};
ghost use Rattle.walk.specs.State.{bytes_of};
ghost use Rattle.leaf_walk.specs.Walks.{lent_join, Walks};
ghost use Rattle.batch.specs.Batch.{batch_leaf};
ghost use Rattle.batch.specs.batch_walk.Plain.{is_plain, is_text};

use crate::{numbers, texts};
use walk::plan_words;

pub trait FlatChild {
    // Whether node k of a plan is such a child.
    ghost holds: { List ℕ → ℕ → Bool };

    // The rows a .. a + n - 1 of node k, whose entries or offsets have w bytes.
    fn copy_stretch(
        plan: &[u64],
        parts: &[u64],
        lengths: &[u64],
        places: &[u64],
        body: &[u8],
        counters: &mut [u64; plan_words::COUNTERS],
        room: &mut [u8],
        write: bool,
        first: usize,
        k: usize,
        w: u64,
        a: u64,
        n: u64,
    ) -> u8
        requires { (first < 2 ^ 32) × (k < 32) × (w ≡ bytes_of plan.now k) × (holds plan.now k ≡ true) }
        ensures { (source : ℕ) → Walks plan parts write (batch_leaf (lent_join plan parts lengths places body first source) k a n) counters room result };
}

pub struct NumberChild;

pub struct TextChild;

impl FlatChild for NumberChild {
    ghost holds = { is_plain };

    fn copy_stretch(
        plan: &[u64],
        parts: &[u64],
        lengths: &[u64],
        places: &[u64],
        body: &[u8],
        counters: &mut [u64; plan_words::COUNTERS],
        room: &mut [u8],
        write: bool,
        first: usize,
        k: usize,
        w: u64,
        a: u64,
        n: u64,
    ) -> u8 {
        numbers::copy_stretch(
            plan, parts, lengths, places, body, counters, room, write, first, k, w, a, n,
        )
    }
}

impl FlatChild for TextChild {
    ghost holds = { is_text };

    fn copy_stretch(
        plan: &[u64],
        parts: &[u64],
        lengths: &[u64],
        places: &[u64],
        body: &[u8],
        counters: &mut [u64; plan_words::COUNTERS],
        room: &mut [u8],
        write: bool,
        first: usize,
        k: usize,
        w: u64,
        a: u64,
        n: u64,
    ) -> u8 {
        texts::copy_stretch(
            plan, parts, lengths, places, body, counters, room, write, first, k, w, a, n,
        )
    }
}
