// Theory: that the walk of an order does what the model does, that the lent room holds what a walk writes, that a plan's numbers stand
// for a type, and what orders, openings and finishing come to on lent memory.
#![tactic(auto)]
