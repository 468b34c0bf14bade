// Columns as they are lent.
#![tactic(auto)]

pub mod entries;
pub mod lent_tables;
pub mod node_words;
