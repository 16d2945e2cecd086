// The theorems of the model, proved: specs/Theorems.antt lists them all. No function.
#![tactic(auto)]
