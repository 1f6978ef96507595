#![tactic(auto)]
// Document 01, "Settings and readings, V2", the column "Data": theorems, see specs/Theorems.antt.
