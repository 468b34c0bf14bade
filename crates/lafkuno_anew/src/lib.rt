// The calls that write one column anew (include/lafkuno.h). Every call is defined for whatever it is lent.
#![tactic(auto)]

mod codings;
mod converting;
mod lists;
mod reclaiming;
