#![tactic(auto)]
// A script's calls: the lines of the input, the call of a line, and what it prints.
pub mod call;
pub mod lines;
pub mod print;
