#![tactic(auto)]
// Theorems on the OPG, over the definitions of the other crates alone: see specs/.
