// The model's definitions against the numbers of the independent version, computed by the checker: specs/ alone, no function.
#![tactic(auto)]
