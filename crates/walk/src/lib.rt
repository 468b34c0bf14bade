// The walk of an order over the nodes of a column, as definitions, and the words of the plan and the counters that it reads and raises.
#![tactic(auto)]

pub mod plan_words;
