#![tactic(auto)]
// Theorems on the numbers of answers, over the definitions of the other crates alone: see specs/.
