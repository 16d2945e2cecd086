// Doubles: the laws of their sums and products, how far 01's tendencies in doubles are from the whole ones, and which expressions are the
// same double. specs/ alone, no function.
#![tactic(auto)]
