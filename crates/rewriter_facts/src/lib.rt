#![tactic(auto)]
// Theorems on text requests that are read and written again, over the definitions of the other crates alone: see specs/.
