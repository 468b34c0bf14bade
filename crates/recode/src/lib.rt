// Entries of one width written again in another: offsets and run ends less a number (`offsets`), keys (`keys`); and whether all are below a
// limit (`limits`).
#![tactic(auto)]

pub mod keys;
pub mod limits;
pub mod offsets;
