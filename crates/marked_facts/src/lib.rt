#![tactic(auto)]
// The marked examples of document 01, over the definitions of the other crates alone: see specs/.
