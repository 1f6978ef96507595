#![tactic(auto)]
// The table of answer numbers of the text gauge (document 01, "Answer numbers of the text gauge"), as definitions; and that it decides what typed requests are decided to be.
