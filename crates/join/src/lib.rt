// Theory: the three demands on whole joins.
#![tactic(auto)]
