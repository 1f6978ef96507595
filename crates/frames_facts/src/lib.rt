#![tactic(auto)]
// Theorems on frames, over the definitions of `frames` and `frame_writer`: see specs/Theorems.antt.
