// Theory: an order walked by stretches, child rows that follow one another in one walk, and that it comes to what the walk of a copy
// comes to.
#![tactic(auto)]

pub mod batch_walk;
mod dense_rows;
mod dense_texts;
mod dense_union;
mod flat_child;
mod gather;
mod homes;
mod list_view;
mod listed;
mod nested_views;
mod numbers;
pub mod rise;
mod short_copy;
mod side;
mod sizes;
mod survey;
mod text_lists;
mod text_puts;
mod text_rows;
mod texts;
