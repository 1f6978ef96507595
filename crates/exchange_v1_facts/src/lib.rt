#![tactic(auto)]
// Document 01, "V1 on the same settings" and "The master's side": theorems only; specs/ has the statements, proofs/ the proofs.
