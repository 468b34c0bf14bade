// Calls that write one column anew outside a join: definitions and laws, and the code for the plan and the room of a result (`result_plan`).
#![tactic(auto)]

pub mod result_plan;
