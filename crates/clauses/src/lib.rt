// Theory: short names for what a contract says of a slice that is lent.
#![tactic(auto)]
