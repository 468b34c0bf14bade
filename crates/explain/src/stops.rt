// What stopped an order, as numbers. The definitions and laws are in specs/ and proofs/; crate `explain` computes it.

// The ground, 0 where nothing stopped the order; the node in tree order and the row within the range that the node was handed, both from
// 0 and 0 where none applies; for 6, 7 and 13 the number needed, cut to 2^64 - 1, and the largest allowed, else zeros.
#[derive(Clone, Copy)]
pub struct Why {
    pub refusal: u8,
    pub node: usize,
    pub row: u64,
    pub needed: u64,
    pub allowed: u64,
}

// The same of a list of orders, with the place of the order that was stopped.
#[derive(Clone, Copy)]
pub struct WhyListed {
    pub place: u32,
    pub why: Why,
}
