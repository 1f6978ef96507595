#![tactic(auto)]
// Theorems on a V2 request and its reply, over the definitions of the other crates alone: see specs/.
