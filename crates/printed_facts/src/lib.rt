#![tactic(auto)]
// Theorems on the texts that are sent, over the definitions of the other crates alone: see specs/Theorems.antt.
