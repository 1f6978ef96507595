#![tactic(auto)]
// Theorems on typed requests that are written and read again, over the definitions of the other crates alone: see specs/Theorems.antt.
