#![tactic(auto)]
// The words of a script's line, with the numbers and the bytes in hex that they stand for.
pub mod word;
