#![tactic(auto)]
// Theorems on serving a stream: long requests are silent, and where a stream is cut has no influence. specs/ has the statements, proofs/ the proofs.
