#![tactic(auto)]
// Theorems on any sequence of calls to the simulated OPG: see specs/.
