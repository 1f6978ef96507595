#![tactic(auto)]
// Document 01, "Answer numbers of the text gauge": theorems only; specs/ has the statements, proofs/ the proofs.
