#![tactic(auto)]
// Theorems on whole sequences of calls of the text gauge, over its contracts alone: see specs/.
