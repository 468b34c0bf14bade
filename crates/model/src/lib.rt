// Theory: the model of the Rust's MutableArrayData, and the theorems on it.
#![tactic(auto)]
