#![tactic(auto)]
// Document 01, "Settings and readings, V2": theorems on the readings and the bench, see specs/Theorems.antt.
