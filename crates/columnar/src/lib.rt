// Theory: the Columnar Format's types, arrays, rules and rows, and the theorems on them.
#![tactic(auto)]
