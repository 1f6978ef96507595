#![tactic(auto)]
// Theorems on decimals of any number of digits, over the definitions of the other crates alone: see specs/.
