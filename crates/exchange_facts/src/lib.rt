#![tactic(auto)]
// Theorems on whole exchanges between a master and the text gauge, over the definitions of the other crates alone: see specs/.
