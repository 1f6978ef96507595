#![tactic(auto)]
// Definitions on histories of calls: see specs/.
