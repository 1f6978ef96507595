#![tactic(auto)]
// Document 01, "Settings and readings, V2" and "V1 on the same settings", what a frame asks: theorems, see specs/Theorems.antt.
